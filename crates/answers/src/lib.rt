// What each call answers, over both ends of a pair: the tests that come first, the sizes of a write and a read, then a module for each call.
#![tactic(auto, unfolding(crate::proofs::Opened::answers_opened), using(endpoint::proofs::answer::Steps::steps))]

pub mod control_calls;
pub mod create;
pub mod read;
pub mod sizes;
pub mod tests;
pub mod threshold;
pub mod write;
pub mod write_size;
