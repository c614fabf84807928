// The program's output, printed into a buffer that is lent: numbers, averages, runs and the lines about refused or unread input.
// Document 01, "Marks from the test rack".
#![tactic(auto)]

pub mod averages;
pub mod bytes;
pub mod lines;
pub mod numbers;

// The buffer that is printed into, and the offset to print at: what was printed stands before it.
#[derive(Drop)]
pub struct Printer<'a> {
    pub out: &'a mut [u8],
    pub at: usize,
}
