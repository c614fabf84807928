// Of steps D and E of a change: two pages under one parent share their entries anew, or become one. Document 01, "One change in five
// steps"; the definitions are those of `steps`, at the kind's rule. Each contract is over every image that the bytes encode and that is
// ready for it (specs/Siblings.antt). All is done on the bytes of the pages, entry by entry: no page is decoded, so that it takes little
// stack.
#![tactic(auto)]

pub mod merge;
pub mod push;
pub mod rebalance;
pub mod redistribute;
pub mod share;

// Two siblings, by the entries above them: the l-th of page p and the next. With the kind, whose rule combines pairs.
#[derive(Clone, Copy)]
pub(crate) struct SiblingsAt {
    kind: u32,
    p: u32,
    l: usize,
}

// Two siblings, by their page numbers.
#[derive(Clone, Copy)]
pub struct SiblingPages {
    pub left: u32,
    pub right: u32,
}
