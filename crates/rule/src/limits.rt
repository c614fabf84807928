// The ranges of document 01, "Time and value": instants, values, kinds, windows, and what follows from them.

// "END = 4,294,967,295 is no instant."
pub const END: u32 = 4294967295;

// The greatest absolute value.
pub const MOST_VALUE: u64 = 1000000;

pub const MOST_WINDOW: u32 = 1000000000;

// How many changes an index takes.
pub const MOST_CHANGES: u32 = 1000000000;

// The greatest absolute sum that a fit page can show.
pub const MOST_SUM: u64 = MOST_VALUE * MOST_CHANGES as u64;

// "a kind (1 totals, 2 greatest, 3 least)"
pub const TOTALS: u32 = 1;

pub const GREATEST: u32 = 2;

pub const LEAST: u32 = 3;
