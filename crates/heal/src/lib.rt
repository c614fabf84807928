// Steps D and E of a change: heal at t. Document 01, "One change in five steps", and document 02, (iv); the definitions are those of
// `steps`, at the kind's rule.
// Each contract is over every image that the bytes encode and that is ready for it (specs/Edges.antt, specs/Healable.antt).
// Everything is done on the bytes of the pages, entry by entry: no page is decoded, so that a heal takes little stack.
#![tactic(auto)]

pub mod carry;
pub mod collapse;
pub mod edges;
pub mod heal;
pub mod leaf;

// What a heal goes by: the kind, whose rule combines pairs, the instant, and whether an edge joins there.
#[derive(Clone, Copy)]
pub(crate) struct HealAt {
    kind: u32,
    t: u32,
    edge: bool,
}
