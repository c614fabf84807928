// A page by its entries, and an inner entry partly inside the span by the page below it. No page is decoded.
ghost use Rattle.std.specs.Prelude.{◌≤◌};
ghost use Rattle.store.specs.Encoding.{Encodes, Pre, Post};
ghost use Rattle.combine_span.specs.SpanCombinable.{page_by, sent_by, PageCombinable, EntryCombinable};

use crate::SpanEffect;
use crate::entries::take_effect;
use page::Entry;
use store::entries::{entry_count_in, entry_end, entry_of};

// Page p of the level named, which ends at hi: what its entries send below, one after the other, and then what they take themselves. The
// page is read from the image as it is at each turn: what was sent below has left it as it was.
#[cycle(combine_entry_combine_page)]
pub(crate) fn combine_page(half: usize, img: &mut [u8], q: SpanEffect, level: u32, hi: u32, p: u32)
    requires { Pre half img.old (PageCombinable q level hi p) }
    ensures { Post half img.old (PageCombinable q level hi p)
        (λ X. Encodes half img.new (page_by q level hi p X)) }
{
    // A leaf has no pages below.
    if level > 0 {
        for i in 0..entry_count_in(half, img, p) {
            let x = entry_of(half, img, p, i);
            let end = entry_end(half, img, p, hi, i);
            combine_entry(half, img, q, level, end, x);
        }
    }
    take_effect(half, img, q, hi, p)
}

// "one partly inside sends it to its child": what an entry of an inner page of that level, which ends at hi, sends below. The level falls.
#[cycle(combine_entry_combine_page)]
fn combine_entry(half: usize, img: &mut [u8], q: SpanEffect, level: u32, hi: u32, x: Entry)
    requires inner { 1 ≤ level }
    requires combinable { Pre half img.old (EntryCombinable q level hi x) }
    ensures { Post half img.old (EntryCombinable q level hi x)
        (λ X. Encodes half img.new (sent_by q level hi x X)) }
{
    if !q.contains(x, hi) && q.meets(x, hi) {
        combine_page(half, img, q, level - 1, hi, x.child)
    }
}
