// Write and read over both ends, plain and over user memory: the bytes into or out of the ring, what that changes, the two ends after it. A write and a
// read have a module each and no step in common: they call other functions, and only a read looks whether its peer is closed.
#![tactic(auto, unfolding(
// the definitions of a call
definition::specs::Status::pick, definition::specs::Status::is_done, definition::specs::Write::fed_queue, definition::specs::Write::write_effect,
// continued
definition::specs::Read::leaving, definition::specs::Read::drained_queue, definition::specs::Read::read_effect,
// continued
definition::specs::Effect::keeping_waits, definition::specs::Effect::if_open, definition::specs::Pair::with_queue,
// both ends, and the changes of their words
endpoint::specs::ends::AtOnce::moved_by, endpoint::specs::ends::AtOnce::own_after, endpoint::specs::ends::AtOnce::peer_after,
// continued
endpoint::specs::ends::AtOnce::own_changed, endpoint::specs::ends::AtOnce::peer_changed, endpoint::specs::ends::AtOnce::visits_of,
// continued
endpoint::specs::ends::AtOnce::visit_of, endpoint::specs::ends::AtOnce::first_two,
// what this crate says by itself
crate::specs::change::Changes::kept_transfer, crate::specs::change::Changes::transfer_outcome, crate::specs::write::WriteChange::fed_effect,
// continued
crate::specs::write::WriteChange::wrote_by, crate::specs::write::WriteChange::write_visits_none,
// continued
crate::specs::read::ReadChange::drained_effect, crate::specs::read::ReadChange::read_by, crate::specs::read::ReadChange::read_visits_none))]

pub mod change;
pub mod read;
pub mod write;
