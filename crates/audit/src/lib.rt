// The audit of an image: soundness by counting. Document 01, "The page".
#![tactic(auto)]

pub mod free;
pub mod unused;
pub mod verdict;
pub mod walk;
