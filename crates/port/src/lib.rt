// The table of 128 places: its counts, the waits that a change of a word fires, taking a packet, registering a wait, dropping those of an end,
// cancelling by end and key, tables of which few places are used, and the visits of all changes of a call. After signal/port.rs and `signal_change` of
// object/mod.rs.
#![tactic(auto, using(endpoint::proofs::answer::Rules::chain), unfolding(
// the definitions of a call
definition::specs::Status::pick, definition::specs::Status::refuse_unless, definition::specs::Signal::meets, definition::specs::Port::end_number,
// continued
definition::specs::Port::new_places, definition::specs::Port::matches, definition::specs::Port::fires, definition::specs::Port::any,
// continued
definition::specs::Port::any_fires, definition::specs::Port::fires_of, definition::specs::Port::observe, definition::specs::Port::packets_of,
// continued
definition::specs::Port::packet_of, definition::specs::Port::refused, definition::specs::Port::take_of,
// what this crate says by itself
crate::specs::places::Table::unused, crate::specs::places::Table::only_wait, crate::specs::places::Table::only_packet,
// continued
crate::specs::visits::Visits::changes_of, crate::specs::visits::Visits::due, crate::specs::visits::Visits::visited,
// continued
crate::specs::visits::Visits::visited_each))]

pub mod cancel;
pub mod few;
pub mod firing;
pub mod packets;
pub mod places;
pub mod signal_change;
pub mod visits;
pub mod waits;
