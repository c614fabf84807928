// Numbers in bytes: reading and writing them at an offset of a slice, and runs of one byte.
#![tactic(auto)]

pub mod field;
pub mod fill;
pub mod word;
