// The bytes of an image and the small changes that the steps are made of: a page is loaded and saved, its entries are read, set, inserted
// and removed one at a time, the head is read and set, a page is taken and given back, the root is set, a change is counted.
// Each contract is over every image that the bytes encode (specs/Encoding.antt) and that is ready (specs/Preconditions.antt).
#![tactic(auto)]

use page::Entry;

pub mod edits;
pub mod entries;
pub mod heads;
pub mod pages;
pub mod root;
pub mod supply;

// What a search for an instant finds in a page: the number of entries, and the one that has the instant, with its index and its end.
#[derive(Clone, Copy)]
pub struct Found {
    pub count: usize,
    pub index: usize,
    pub entry: Entry,
    pub end: u32,
}
