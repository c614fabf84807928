// The calls of document 01, and document 02's rebuild, as C and Rust get them: numbers, byte slices, and small structs of numbers by value.
// Each takes anything, and its contract says the status returned, the answer, and every byte of what was lent. A call on an image reads the
// capacity of its pages first (document 02, (xi)), and goes on by half of it.
#![tactic(auto)]

pub mod audits;
pub mod averages;
pub mod bookings;
pub mod formats;
pub mod instants;
mod judge;
pub mod listings;
pub mod rebuilds;

// The status, document 01's number, with the pair, the pages read, and the start and the end of the leaf entry that has the instant.
#[repr(C)]
#[derive(Clone, Copy, Default)]
pub struct InstantAnswer {
    pub status: u32,
    pub pages: u32,
    pub sum: i64,
    pub count: i32,
    pub start: u32,
    pub end: u32,
}

// What an average's answer is: numbers and no enum, since the C interface has them.
pub const NO_AVERAGE: u32 = 0;

pub const IN_HUNDREDTHS: u32 = 1;

pub const BEYOND: u32 = 2;

// The status, document 01's number; 0 for no average, 1 for one in hundredths, 2 for a sum that no fit page can show.
#[repr(C)]
#[derive(Clone, Copy, Default)]
pub struct AverageAnswer {
    pub status: u32,
    pub answer: u32,
    pub hundredths: i64,
}

// The status, document 01's number, with the number of runs.
#[repr(C)]
#[derive(Clone, Copy, Default)]
pub struct ListingAnswer {
    pub status: u32,
    pub runs: u32,
}
