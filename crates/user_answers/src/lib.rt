// What the calls over user memory answer: user memory and its ranges, the lookup of a handle with a right, write and read.
#![tactic(auto, unfolding(crate::proofs::Opened::user_answers_opened), using(endpoint::proofs::answer::Steps::steps))]

pub mod lookup;
pub mod memory;
pub mod read;
pub mod write;
