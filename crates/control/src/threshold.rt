// The thresholds over both ends of a pair: each is tested, then changes the two ends, and the waits are visited later.
// After `Socket` of ipc/socket.rs.
ghost use Rattle.std.specs.Prelude.{◌≡◌, ◌≤◌, [], ◌∷◌};
ghost use Rattle.definition.specs.Pair.{is_one, own, peer, with_thresholds};
ghost use Rattle.definition.specs.Effect.{own_bit, keeping_waits};
ghost use Rattle.definition.specs.Threshold.{read_threshold_answer, read_threshold_effect, write_threshold_answer, write_threshold_effect};
ghost use Rattle.endpoint.specs.ends.AtOnce.{moved_by};
ghost use Rattle.control.specs.ByEffect.{moved_if};

use definition::{Ends, Thresholds};
use endpoint::bits::is_reached;
use endpoint::ends::{EndsOutcome, Moved, Sides, sides_of};
use endpoint::signal::{READ_THRESHOLD, WRITE_THRESHOLD};

// This end with its thresholds replaced, and the bit of the one that changed.
fn thresholds_moved(s: Sides, thresholds: Thresholds, reached: bool, bit: u32) -> Moved
    ensures { result ≡ moved_by s.one (keeping_waits (with_thresholds thresholds s.own) s.peer (own_bit reached bit ∷ [])) }
{
    let first = crate::ends::bit_visit(s.one, s.own.signals, reached, bit);
    let next = crate::ends::changed_end(endpoint::end::with_thresholds(s.own, thresholds), first);
    crate::ends::first_only(next, s.peer, first)
}

fn read_threshold_moved(s: Sides, threshold: u64) -> Moved
    ensures { result ≡ moved_by s.one (read_threshold_effect s.own s.peer threshold) }
{
    let thresholds = Thresholds {
        read: threshold,
        write: s.own.thresholds.write,
    };
    let reached = is_reached(threshold, s.own.queue.bytes.count);
    thresholds_moved(s, thresholds, reached, READ_THRESHOLD)
}

fn write_threshold_moved(capacity: u32, s: Sides, threshold: u64) -> Moved
    requires { s.peer.queue.bytes.count ≤ capacity }
    ensures { result ≡ moved_by s.one (write_threshold_effect capacity s.own s.peer threshold) }
{
    let thresholds = Thresholds {
        read: s.own.thresholds.read,
        write: threshold,
    };
    let reached = is_reached(threshold, capacity - s.peer.queue.bytes.count);
    thresholds_moved(s, thresholds, reached, WRITE_THRESHOLD)
}

// READ_THRESHOLD shows while at least so many bytes are queued at this end; 0 is none.
pub fn read_threshold_ends(e: Ends, handle: u32, threshold: u64) -> EndsOutcome
    ensures { result ≡ moved_if e handle (read_threshold_answer e handle threshold) (read_threshold_effect (own (is_one handle) e) (peer (is_one handle) e) threshold) }
{
    let a = answers::threshold::read_threshold_answer(e, handle, threshold);
    if a.is_err() {
        return endpoint::ends::unchanged(e, a);
    }
    let s = sides_of(e, handle);
    crate::ends::put_both(e.waits, s.one, a, read_threshold_moved(s, threshold))
}

// While the peer is open, WRITE_THRESHOLD shows whether its queue has at least so much space; 0 is none. The bit stays as it is when the peer closes.
pub fn write_threshold_ends(e: Ends, handle: u32, threshold: u64) -> EndsOutcome
    ensures { result ≡ moved_if e handle (write_threshold_answer e handle threshold) (write_threshold_effect e.capacity (own (is_one handle) e) (peer (is_one handle) e) threshold) }
{
    let a = answers::threshold::write_threshold_answer(e, handle, threshold);
    if a.is_err() {
        return endpoint::ends::unchanged(e, a);
    }
    let s = sides_of(e, handle);
    crate::ends::put_both(
        e.waits,
        s.one,
        a,
        write_threshold_moved(e.capacity, s, threshold),
    )
}
