// A pair that is kept behind a reference: the next pair of a call, stored there, and its waits visited.
#![tactic(auto, unfolding(
// the definitions of a call
definition::specs::Status::pick, definition::specs::Status::is_done,
// the next pair of a call
socket::specs::Deferred::closed_waits, socket::specs::Deferred::settled_step, socket::specs::Deferred::taken_pair,
// continued
socket::specs::Deferred::registered_pair, socket::specs::Deferred::with_ends,
// what this crate says by itself
crate::specs::transferred::Transferred::transferred_pair))]

pub mod pair;
pub mod places;
pub mod transferred;
pub mod transfers;
