// "an entry wholly inside the span takes the effect": in place, and nothing else of the page is written.
ghost use Rattle.std.specs.Prelude.{◌≡◌, [], ◌∷◌};
ghost use Rattle.lists.specs.Lists.{splice};
ghost use Rattle.rule.specs.Pairs.{combine};
ghost use Rattle.rule.specs.Bounds.{Combinable};
ghost use Rattle.page.specs.Entries.{at, entry};
ghost use Rattle.image.specs.Images.{tree};
ghost use Rattle.steps.specs.Supply.{entries, put};
ghost use Rattle.steps.specs.Combine.{end_in};
ghost use Rattle.store.specs.Encoding.{Encodes, PreLevel, PostLevel};
ghost use Rattle.combine_span.specs.SpanCombinable.{took_by, all_took, EntryTakes, PageTakes};

use crate::SpanEffect;
use page::Entry;
use rule::combine::combine;
use store::edits::set_entry;
use store::entries::{entry_count_in, entry_end, entry_of};

// The entry with the effect combined into its pair.
fn with_effect(q: SpanEffect, x: Entry) -> Entry
    requires { Combinable x.pair q.effect }
    ensures { result ≡ entry x.start (combine q.kind x.pair q.effect) x.child }
{
    Entry {
        pair: combine(q.kind, x.pair, q.effect),
        ..x
    }
}

// The i-th entry of page p, a page that ends at hi: it is written only if it is inside.
fn entry_takes(half: usize, img: &mut [u8], q: SpanEffect, hi: u32, p: u32, i: usize)
    requires { PreLevel half img.old (EntryTakes q hi p i) }
    ensures { PostLevel half img.old (EntryTakes q hi p i) (λ l X. Encodes half img.new
        (put p (tree l (splice i (took_by q (end_in hi (entries X p) i) (at (entries X p) i) ∷ []) (entries X p))) X)) }
{
    let x = entry_of(half, img, p, i);
    let end = entry_end(half, img, p, hi, i);
    if q.contains(x, end) {
        set_entry(half, img, p, i, with_effect(q, x));
    }
}

// All entries of page p, which ends at hi.
pub(crate) fn take_effect(half: usize, img: &mut [u8], q: SpanEffect, hi: u32, p: u32)
    requires { PreLevel half img.old (PageTakes q hi p) }
    ensures { PostLevel half img.old (PageTakes q hi p)
        (λ l X. Encodes half img.new (put p (tree l (all_took q hi (entries X p))) X)) }
{
    for i in 0..entry_count_in(half, img, p) {
        entry_takes(half, img, q, hi, p, i);
    }
}
