// Fitness: is the head fit, is a page fit in its context in the tree. Document 01, "The page".
#![tactic(auto)]

pub mod bounds;
pub mod contexts;
pub mod entries;
pub mod entry_count;
pub mod head;
pub mod starts;
pub mod tree_page;
pub mod unused;

// What an entry of a page may hold, in bounds that serve every kind and level, so that one loop tests all entries:
// an absolute sum of at most `sum` and `each` for every one of its count, a count from -`below` on, at most `span` above that,
// and a child from `first` on, below `past`.
#[derive(Clone, Copy)]
pub struct Limits {
    pub sum: u64,
    pub each: u64,
    pub below: u64,
    pub span: u64,
    pub first: u64,
    pub past: u64,
}
