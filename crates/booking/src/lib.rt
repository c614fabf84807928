// Enter and withdraw: the rows that turn a booking back, in document 01's order, and the change that an accepted one makes.
#![tactic(auto)]

pub mod book;
pub mod changes;
pub mod effects;
pub mod input;
pub mod state;
