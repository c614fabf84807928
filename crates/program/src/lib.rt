// The program but for its reading and writing: what each byte of the text does to the image and prints, and the listing at its end.
// Document 01, "Marks from the test rack".
#![tactic(auto)]

use page::layout::{CAPACITY, PAGE_BYTES};
use runs::RUN_BYTES;
use text::Fed;

pub mod ending;
pub mod lines;
pub mod pieces;
pub mod printed;

// "(64 pages, kind 1, w = 0)"
pub const PAGES: usize = 64;

pub const IMAGE_BYTES: usize = PAGES * PAGE_BYTES;

// Document 02, (vi): a bit for each page; by hand, since a constant's value can't call `div_ceil`.
pub const SCRATCH_BYTES: usize = (PAGES + 7) / 8;

// Room for as many runs as 64 pages can have: 59 leaf pages.
pub const MOST_RUNS: usize = 59 * CAPACITY;

pub const LIST_BYTES: usize = MOST_RUNS * RUN_BYTES;

// The longest line about a refusal, about the number of runs, and about one run.
pub const REFUSED_LINE: usize = 55;

const RUNS_LINE: usize = 26;

const RUN_LINE: usize = 111;

pub const ENDING_BYTES: usize = RUNS_LINE + MOST_RUNS * RUN_LINE;

// The program in the middle of its text: the line that is coming, that line's number, and the offset behind what is printed.
#[derive(Drop)]
pub struct Reading {
    pub fed: Fed,
    pub number: u64,
    pub at: usize,
}
