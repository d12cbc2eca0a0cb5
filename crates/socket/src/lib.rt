// A socket pair as a value: each operation is a method that takes the pair and hands the next one back. After `Socket` of ipc/socket.rs.
//
// A call is lent the rings and tables that it uses. It answers −1 for a record that is INTERNAL, so that nothing is demanded of a caller.
#![tactic(auto, using(crate::proofs::Done::is_ok_done, endpoint::proofs::answer::Rules::chain), unfolding(
// choices, and the parts of a pair
definition::specs::Status::pick, definition::specs::Pair::with_places, definition::specs::Pair::shown_by, definition::specs::Create::new_pair,
// which places are used
port::specs::places::Table::unused, port::specs::places::Table::only_wait, port::specs::places::Table::only_packet,
// and how many
port::specs::few::Few::at_most_seven_used,
// the waits of a call, visited last
port::specs::visits::Visits::visited_each, crate::specs::Deferred::needs_visit, crate::specs::Deferred::visited_pair, crate::specs::Deferred::visited_all,
// its ends, and a close
crate::specs::Deferred::with_ends, crate::specs::Deferred::without_waits,
// a wait more
crate::specs::Deferred::registered_pair, crate::specs::Deferred::appends_few, crate::specs::Deferred::appended_pair,
// a packet less
crate::specs::Deferred::taken_pair))]

use definition::{Answer, Pair};

mod cancel;
mod close;
mod create;
mod deferred;
mod disposition;
mod info;
mod parts;
mod read;
mod shutdown;
mod threshold;
mod wait;
mod write;

pub use cancel::{cancelled, only_match, without_place};
pub use create::new_pair;
pub use deferred::{
    close_waits, has_only_wait, needs_visit, settle, visit_each, visit_only, with_outcome,
};
pub use parts::ends_of;
pub use wait::{
    appends_few, has_only_packet, is_unused, registered, registered_first, registered_last,
    take_answer, taken, taken_only,
};

// The pair with its methods. It holds its record as the original's `Socket` holds its `inner`.
#[derive(Clone, Copy)]
pub struct SocketPair {
    pub inner: Pair,
}

// What a method hands back: the next pair, and the answer. It is a type of its own and not a `Step` over any pair, since `inner_step` of specs/Step.antt,
// by which each contract speaks of it, is defined on it.
#[derive(Clone, Copy)]
pub struct SocketStep {
    pub pair: SocketPair,
    pub answer: Answer,
}
