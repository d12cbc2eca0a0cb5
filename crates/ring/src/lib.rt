// A queue's ring: places in it, and the copies between it and a plain slice, in two parts.
#![tactic(auto, using(endpoint::proofs::answer::Tests::tests, crate::proofs::copy::Parts::fitting), unfolding(
// places
definition::specs::Ring::position, definition::specs::Status::pick,
// copies
crate::specs::copy::Copies::ring_fits, crate::specs::copy::Copies::copied_in, crate::specs::copy::Copies::copied_out))]

pub mod copy;
pub mod place;
