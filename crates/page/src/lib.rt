// A page of the image: the head, a tree page, a free page.
// Document 01, "The page"; docs/FORMAT.md has the fields' offsets. A tree page of capacity K, by its bytes:
//     0         4       level (u32, leaf 0)
//     4         4       count of entries (u32), at most K
//     8         24      unused, FF
//     32        4 × K   starts (u32)
//     32 + 4K   16 × K  entries: sum (i64), count (i32), child (u32, 0 in a leaf)
// A free page has 255 as its level and its next page at 4; the head has ten u32. All other bytes are FF.
#![tactic(auto)]

use layout::SLOTS;
use rule::Pair;

pub mod at;
pub mod blank;
pub mod capacities;
pub mod decoded;
pub mod heads;
pub mod layout;
pub mod pages;
pub mod read;
pub mod slots;
pub mod write;

// An entry of a tree page: from start up to the next entry's start its pair counts; a leaf's child is 0.
#[derive(Clone, Copy)]
pub struct Entry {
    pub start: u32,
    pub pair: Pair,
    pub child: u32,
}

// The numbers of page 0, in the order in which they stand there.
#[derive(Clone, Copy)]
pub struct Head {
    pub pages: u32,
    pub height: u32,
    pub root: u32,
    pub free: u32,
    pub chain: u32,
    pub mark: u32,
    pub kind: u32,
    pub window: u32,
    pub changes: u32,
    pub capacity: u32,
}

// A decoded tree page: its level, its count of entries, and an array for each of an entry's numbers. There is a slot more
// than a written page has, for the entry that makes it split. What stands past its length means nothing. Arrays of numbers, and not
// one array of entries, are the form that document 01 names.
#[derive(Clone, Copy)]
pub struct Page {
    pub level: u32,
    pub len: usize,
    pub starts: [u32; SLOTS],
    pub sums: [i64; SLOTS],
    pub counts: [i32; SLOTS],
    pub children: [u32; SLOTS],
}

// A page's context, document 01's place of a page in the tree: the level expected there, whether it is the root's, the span of the entry
// that leads to it, and what the absolute sums and counts of the entries above it add to.
#[derive(Clone, Copy)]
pub struct PageContext {
    pub level: u32,
    pub is_root: bool,
    pub lo: u32,
    pub hi: u32,
    pub sums: u64,
    pub counts: u64,
}
