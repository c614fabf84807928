// An instant's answer: the entry that has it in each page on its path, and their pairs combined.
// Document 01, "The page": "An instant's answer combines the pairs on its way from root to leaf."
// Document 02, (viii): "the instant answer gains the start and end of its leaf entry."
#![tactic(auto)]

use page::Entry;
use rule::Pair;

pub mod find;
pub mod levels;
pub mod look_up;

// Where the entry that has an instant was found: its index in the page, and its end.
#[derive(Clone, Copy)]
pub struct FoundAt {
    pub index: usize,
    pub end: u32,
}

// A level's answer: the entry that has the instant, and its end; or a page that is unfit. Document 01 names this form, an enum that is
// taken apart by `let .. else`, so it is no Option of a pair.
#[derive(Clone, Copy)]
pub enum LevelAnswer {
    Entry(Entry, u32),
    Unfit,
}

// A pair that holds from `start` until `end`, those of the leaf entry that has the instant.
#[derive(Clone, Copy)]
pub struct Holding {
    pub pair: Pair,
    pub start: u32,
    pub end: u32,
}

// What a lookup finds: the pair and how long it holds, or nothing where a page is unfit; and how many tree pages were read.
#[derive(Clone, Copy)]
pub struct LookupAnswer {
    pub found: Option<Holding>,
    pub pages: u32,
}
