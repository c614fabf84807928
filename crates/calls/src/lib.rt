// The calls of document 01, and document 02's rebuild: their definitions stand in specs/, and here what a call refuses, the numbers that it
// returns, and the booking that enter and withdraw take.
#![tactic(auto)]

pub mod bookings;
pub mod refusals;
