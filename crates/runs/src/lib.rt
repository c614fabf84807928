// The open run of a listing: updated in place at every leaf entry. Document 01, "Span listing".
#![tactic(auto)]

use rule::Pair;

pub mod collector;
pub mod listed;
pub mod next;
pub mod output;

// "16 bytes each: start (u32), count (i32), sum (i64)"
pub const RUN_BYTES: usize = 16;

pub const RUN_COUNT_OFFSET: usize = 4;

pub const RUN_SUM_OFFSET: usize = 8;

// A run of a listing: from its start up to the next one's the pair is the same.
#[derive(Clone, Copy)]
pub struct ListedRun {
    pub start: u32,
    pub pair: Pair,
}

// The run that a walk is in, and how many runs it has opened so far; none at first. No Option around it: the count is needed besides, and
// tells by itself whether a run is open (`no_run` of specs/Open).
#[derive(Clone, Copy)]
pub struct Run {
    pub start: u32,
    pub pair: Pair,
    pub written: u32,
}
