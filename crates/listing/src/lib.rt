// The walk of a span listing. Document 01, "Span listing".
#![tactic(auto)]

use page::{Head, PageContext};
use rule::Pair;

pub mod bottom;
pub mod entries;
pub mod leaves;
pub mod met;
pub mod pages;
pub mod pass;
pub mod passes;
pub mod walks;

// What is listed: the span [a, b) of an image of pages of this capacity, half of it here, with this head; and whether every page met is
// known to be fit. That is no step to be run but a fact of the image, which either pass may be told, so it is a field.
#[derive(Clone, Copy)]
pub struct SpanQuery {
    pub half: usize,
    pub head: Head,
    pub a: u32,
    pub b: u32,
    pub known: bool,
}

// Where the walk stands: a page, its context, and the pair that the entries above it combine to.
#[derive(Clone, Copy)]
pub struct Cursor {
    pub at: PageContext,
    pub page: u32,
    pub above: Pair,
}
