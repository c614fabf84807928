// Pairs of a sum and a count, the combining rule of each kind, and the average.
// Document 01, "Time and value".
#![tactic(auto)]

pub mod averages;
pub mod combine;
pub mod limits;
pub mod time;
pub mod top_bits;

// What an index answers at an instant, and what a tree entry holds.
#[derive(Clone, Copy, PartialEq, Eq)]
pub struct Pair {
    pub sum: i64,
    pub count: i32,
}

impl Pair {
    // What an instant answers where nothing counts.
    pub const NONE: Pair = Pair { sum: 0, count: 0 };
}

// An average in hundredths, document 01's 'none', or a sum that no fit page can show.
#[derive(Clone, Copy)]
pub enum Average {
    Hundredths(i64),
    Nothing,
    Beyond,
}
