// Disposition over both ends of a pair, whether each end may write: it is tested, then changes the two ends, and the waits are visited later.
// After `Socket` of ipc/socket.rs.
ghost use Rattle.std.specs.Prelude.{◌≡◌};
ghost use Rattle.definition.specs.declared.Disposition.TheVariants.{Unchanged, Disable, Enable};
ghost use Rattle.definition.specs.Status.{pick};
ghost use Rattle.definition.specs.Pair.{is_one, own, peer};
ghost use Rattle.definition.specs.Effect.{own_word};
ghost use Rattle.definition.specs.Disposition.{dispose_answer, writing, dispose_effect};
ghost use Rattle.endpoint.specs.ends.AtOnce.{moved_by};
ghost use Rattle.control.specs.ByEffect.{visit_at, moved_last, done_outcome, moved_if};

use definition::{Answer, Disposition, Ends};
use endpoint::ends::{EndsOutcome, Moved, Pending, Sides, sides_of};
use endpoint::signal::{PEER_WRITE_DISABLED, WRITABLE, WRITE_DISABLED};

// The writing of an end, disabled or enabled.
fn writing_visit(one: bool, word: u32, off: bool) -> Pending
    ensures { result ≡ visit_at one word (writing own_word (pick off Disable Enable)) }
{
    if off {
        return Pending {
            one,
            word,
            clear: WRITABLE,
            set: WRITE_DISABLED,
        };
    }
    Pending {
        one,
        word,
        clear: WRITE_DISABLED,
        set: WRITABLE,
    }
}

// The writing of this end; an open peer's reading flag and PEER_WRITE_DISABLED follow.
fn own_disposed(s: Sides, off: bool) -> Moved
    ensures { result ≡ moved_by s.one (dispose_effect s.own s.peer (pick off Disable Enable) Unchanged) }
{
    let first = writing_visit(s.one, s.own.signals, off);
    let next = crate::ends::changed_end(s.own, first);
    if s.peer.closed {
        return crate::ends::first_only(next, s.peer, first);
    }
    let second = crate::ends::bit_visit(!s.one, s.peer.signals, off, PEER_WRITE_DISABLED);
    let flagged = endpoint::end::with_read_disabled(s.peer, off);
    let next_peer = crate::ends::changed_end(flagged, second);
    crate::ends::with_visits(next, next_peer, first, second)
}

// The reading flag of this end in any case; with an open peer the peer's writing, then this end's PEER_WRITE_DISABLED.
fn peer_disposed(s: Sides, off: bool) -> Moved
    ensures { result ≡ moved_last s.one (dispose_effect s.own s.peer Unchanged (pick off Disable Enable)) }
{
    let flagged = endpoint::end::with_read_disabled(s.own, off);
    if s.peer.closed {
        return endpoint::ends::kept_ends(flagged, s.peer);
    }
    let first = writing_visit(!s.one, s.peer.signals, off);
    let second = crate::ends::bit_visit(s.one, s.own.signals, off, PEER_WRITE_DISABLED);
    let next_peer = crate::ends::changed_end(s.peer, first);
    let next = crate::ends::changed_end(flagged, second);
    crate::ends::with_visits(next, next_peer, first, second)
}

// By the target. The cases are matched here and in `peer_moved`, each once: the two change different ends, and what they share is above.
fn own_moved(s: Sides, d: Disposition) -> Moved
    ensures { result ≡ moved_by s.one (dispose_effect s.own s.peer d Unchanged) }
{
    match d {
        Disposition::Unchanged => endpoint::ends::kept_ends(s.own, s.peer),
        Disposition::Disable => own_disposed(s, true),
        Disposition::Enable => own_disposed(s, false),
    }
}

fn peer_moved(s: Sides, d: Disposition) -> Moved
    ensures { result ≡ moved_last s.one (dispose_effect s.own s.peer Unchanged d) }
{
    match d {
        Disposition::Unchanged => endpoint::ends::kept_ends(s.own, s.peer),
        Disposition::Disable => peer_disposed(s, true),
        Disposition::Enable => peer_disposed(s, false),
    }
}

// Own first, then peer.
fn disposed_ends(
    waits: usize,
    s: Sides,
    answer: Answer,
    d: Disposition,
    f: Disposition,
) -> EndsOutcome
    ensures { result ≡ done_outcome waits s.one answer (dispose_effect s.own s.peer d f) }
{
    let m = own_moved(s, d);
    let mid = Sides {
        one: s.one,
        own: m.own,
        peer: m.peer,
    };
    let n = peer_moved(mid, f);
    let moved = Moved {
        own: n.own,
        peer: n.peer,
        visits: m.visits,
    };
    endpoint::ends::put_back(waits, s.one, answer, moved, n.visits)
}

// Disables or enables the writing of this end, then of its peer.
pub fn dispose_ends(
    e: Ends,
    handle: u32,
    disposition: Disposition,
    peer_disposition: Disposition,
) -> EndsOutcome
    ensures { result ≡ moved_if e handle (dispose_answer e handle disposition peer_disposition) (dispose_effect (own (is_one handle) e) (peer (is_one handle) e) disposition peer_disposition) }
{
    let a = answers::control_calls::dispose_answer(e, handle, disposition, peer_disposition);
    if a.is_err() {
        return endpoint::ends::unchanged(e, a);
    }
    disposed_ends(
        e.waits,
        sides_of(e, handle),
        a,
        disposition,
        peer_disposition,
    )
}
