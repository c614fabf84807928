// One change in five steps, on the bytes of an image.
#![tactic(auto)]

pub mod apply;
