// The small functions over the records of one end and of two: answers and their word, the signal word, an end and its queue, the bits that a write
// and a read change, both ends by the caller's handle. Most of them are one definition each, whose body their proofs read.
#![tactic(auto, using(crate::proofs::answer::Tests::tests), unfolding(
// choices and counts
definition::specs::Status::pick, definition::specs::Status::count_of, definition::specs::Status::record_count,
// words of answers
definition::specs::Status::answer_word, definition::specs::Status::status_number, definition::specs::Status::is_done,
// a queue
definition::specs::Tests::sound_lengths, definition::specs::Tests::sound_queue, definition::specs::Tests::has_length,
// its first length
definition::specs::Tests::first_length, definition::specs::Tests::bad_first,
// what is lent
definition::specs::Tests::short_table, definition::specs::Tests::short_slices,
// an end
definition::specs::Pair::no_queue, definition::specs::Create::new_end, definition::specs::Create::no_end,
// what it shows, and what is left of it
definition::specs::Pair::shown, definition::specs::Close::closed_end,
// an end with one part replaced
definition::specs::Pair::with_queue, definition::specs::Pair::with_signals,
// also by a disposition and by thresholds
definition::specs::Pair::with_read_disabled, definition::specs::Pair::with_thresholds,
// a signal word
definition::specs::Signal::meets, definition::specs::Signal::changed_word,
// bits by a test
definition::specs::Signal::bit_if, definition::specs::Signal::reached, definition::specs::Signal::missed,
// what a write and a read change in it
definition::specs::Write::gained_by_peer, definition::specs::Write::lost_by_writer,
// by the reader
definition::specs::Read::lost_by_reader, definition::specs::Read::gained_by_writer,
// dispositions
definition::specs::Disposition::enables, definition::specs::Disposition::enables_over, definition::specs::Disposition::dispose_checks,
// over a backlog
definition::specs::Disposition::has_backlog, definition::specs::Disposition::has_open_backlog,
// outcomes
crate::specs::ends::Outcome::keeps_word, crate::specs::ends::Outcome::can_fire, crate::specs::ends::Outcome::any_can_fire,
// of whole calls
crate::specs::ends::Outcome::outcome_of, crate::specs::ends::Outcome::kept_ends, crate::specs::ends::Outcome::unchanged_ends,))]

pub mod answer;
pub mod bits;
pub mod choice;
pub mod end;
pub mod ends;
pub mod signal;
