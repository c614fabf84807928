// The program's input: lines of bookings, parsed where they lie or as they come byte by byte.
// Document 01, "Marks from the test rack": "The program reads lines `+ v s e` or `- v s e` from standard input".
#![tactic(auto)]

pub mod digits;
pub mod feed;
pub mod field;
pub mod parse;

pub use feed::Fed;

// The most bytes of a booking: sign, value with a minus, two instants, three spaces.
pub const LINE_BYTES: usize = 35;

// One byte more tells a longer line.
pub const FED_BYTES: usize = LINE_BYTES + 1;
