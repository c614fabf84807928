// A clean image from a sound one: the runs of its listing in as few pages as there can be. Document 02, (iii).
// There is no memory but the two images: the runs are first listed at the front of the target, the leaf pages are made of them from the
// last to the first, and each level above of the pages below it.
#![tactic(auto)]

pub mod entries;
pub mod images;
pub mod leaves;
pub mod levels;
pub mod pages;
pub mod sizes;
pub mod targets;
pub mod trees;

// How many pages a tree has, and how many levels.
#[derive(Clone, Copy)]
pub struct TreeSize {
    pub pages: u32,
    pub height: u32,
}
