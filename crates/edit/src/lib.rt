// Edits of a decoded page, by value: a page goes in and the edited page comes back. A full page that gains an entry is decoded to be
// split; every other edit of a page is made on its bytes (`page::slots`).
// Each contract is one equation on the list of entries that the page shows.
#![tactic(auto)]

pub mod copy;
pub mod entry;
pub mod insert;
pub mod split;
