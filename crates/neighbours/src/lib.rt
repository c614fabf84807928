// Document 02, (iv): whether the totals of neighbouring leaf entries differ, in an image of totals that is sound by document 01's rule; and
// soundness with that clause.
#![tactic(auto)]

use rule::Pair;

pub mod leaves;
pub mod parts;
pub mod verdict;
pub mod walk;

// What is found of the leaf entries below a page: whether the totals of neighbours differ, and the first and the last total. In a total
// are the pairs from that page on down: what stands above adds the same to each, so that it makes no difference.
#[derive(Clone, Copy)]
pub struct Edges {
    pub apart: bool,
    pub first: Pair,
    pub last: Pair,
}
