// Step C of a change: the effect is combined into [s, e). Document 01, "One change in five steps".
#![tactic(auto)]

ghost use Rattle.std.specs.Prelude.{◌≡◌};
ghost use Rattle.combine_span.specs.SpanCombinable.{inside_by, meets_by};

use page::Entry;
use rule::Pair;
use rule::time::overlaps;

pub mod entries;
pub mod pages;
pub mod root;

// What step C combines where: the effect of a change in an index of this kind, over [s, e).
#[derive(Clone, Copy)]
pub struct SpanEffect {
    pub kind: u32,
    pub s: u32,
    pub e: u32,
    pub effect: Pair,
}

impl SpanEffect {
    // Whether an entry that ends at hi lies wholly inside [s, e).
    pub(crate) fn contains(self, x: Entry, hi: u32) -> bool
        ensures { result ≡ inside_by self hi x }
    {
        (self.s <= x.start) & (hi <= self.e)
    }

    // Whether it has an instant of [s, e).
    pub(crate) fn meets(self, x: Entry, hi: u32) -> bool
        ensures { result ≡ meets_by self hi x }
    {
        overlaps(self.s, self.e, x.start, hi)
    }
}
