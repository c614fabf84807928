// Steps A and B of a change: cut at an instant. Document 01, "One change in five steps".
// The contracts are the definitions of `steps` (specs/Cut.antt), for every image that the bytes encode and that can be cut
// (specs/Cuttable.antt).
#![tactic(auto)]

pub mod cut;
pub mod entries;
pub mod root;
pub mod split;

// What was split off an entry that was cut, where it became two: the right one's start and its child page.
#[derive(Clone, Copy)]
pub struct SplitOff {
    pub start: u32,
    pub page: u32,
}
