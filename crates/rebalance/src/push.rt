// "Each of the two parent pairs is first combined into its page's entries and set to (0, 0)"
ghost use Rattle.std.specs.Prelude.{◌≡◌, [], ◌∷◌};
ghost use Rattle.rule.specs.Pairs.{combine};
ghost use Rattle.page.specs.Entries.{at};
ghost use Rattle.lists.specs.Lists.{splice};
ghost use Rattle.image.specs.Images.{tree};
ghost use Rattle.steps.specs.Supply.{entries, put};
ghost use Rattle.steps.specs.Heal.{pushed};
ghost use Rattle.store.specs.Encoding.{Encodes, PreLevel, PostLevel};
ghost use Rattle.store.specs.Preconditions.{HasEntry, PushReady};
ghost use Rattle.rebalance.specs.Siblings.{Siblings, EntryPushable, with_pair, emptied, BothPushed, pair_emptied};

use crate::{SiblingPages, SiblingsAt};
use page::Entry;
use rule::Pair;
use rule::combine::combine;
use store::edits::set_entry;
use store::entries::{entry_count_in, entry_of};

// The pair combined into the i-th entry of page q.
fn push_entry(half: usize, img: &mut [u8], kind: u32, pair: Pair, q: u32, i: usize)
    requires { PreLevel half img.old (λ v. EntryPushable pair v q i) }
    ensures { PostLevel half img.old (λ v. EntryPushable pair v q i)
        (λ v X. Encodes half img.new
        (put q (tree v (splice i (with_pair kind pair (at (entries X q) i) ∷ []) (entries X q))) X)) }
{
    let e = entry_of(half, img, q, i);
    let pair = combine(kind, pair, e.pair);
    set_entry(half, img, q, i, Entry { pair, ..e });
}

// The pair of e combined into each entry of the page under e.
pub fn push_down(half: usize, img: &mut [u8], kind: u32, e: Entry)
    requires { PreLevel half img.old (λ v. PushReady v e) }
    ensures { PostLevel half img.old (λ v. PushReady v e)
        (λ v X. Encodes half img.new (put e.child (tree v (pushed (combine kind) X e)) X)) }
{
    for i in 0..entry_count_in(half, img, e.child) {
        push_entry(half, img, kind, e.pair, e.child, i);
    }
}

// Both pages.
pub(crate) fn push_siblings(half: usize, img: &mut [u8], at: SiblingsAt) -> SiblingPages
    requires { PreLevel half img.old (λ v. Siblings v at.p at.l) }
    ensures { PostLevel half img.old (λ v. Siblings v at.p at.l)
        (λ v X. BothPushed half at.kind v at.p at.l X result img.new) }
{
    let a = entry_of(half, img, at.p, at.l);
    let b = entry_of(half, img, at.p, at.l + 1);
    push_down(half, img, at.kind, a);
    push_down(half, img, at.kind, b);
    SiblingPages {
        left: a.child,
        right: b.child,
    }
}

// An entry "set to (0, 0)", from `start` on.
pub(crate) fn emptied(e: Entry, start: u32) -> Entry
    ensures { result ≡ emptied start e }
{
    Entry {
        start,
        pair: Pair::NONE,
        ..e
    }
}

// The pair of the l-th entry of page p, once the page under it has it.
pub(crate) fn empty_pair(half: usize, img: &mut [u8], p: u32, l: usize)
    requires { PreLevel half img.old (λ v. HasEntry v p l) }
    ensures { PostLevel half img.old (λ v. HasEntry v p l)
        (λ v X. Encodes half img.new (pair_emptied v p l X)) }
{
    let e = entry_of(half, img, p, l);
    set_entry(half, img, p, l, emptied(e, e.start));
}
