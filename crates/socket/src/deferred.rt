// A call whose waits are visited last. A caller that keeps the pair in place so passes the table of places on only where a wait can fire, and
// the table is rebuilt only where one does.
ghost use Rattle.std.specs.Prelude.{◌≡◌, length};
ghost use Rattle.definition.specs.Status.{pick};
ghost use Rattle.port.specs.places.Table.{only_wait};
ghost use Rattle.definition.specs.Pair.{is_one};
ghost use Rattle.socket.specs.Deferred.{needs_visit, visited_all, with_outcome, settled_step, without_waits};

use crate::parts;
use definition::{Endpoint, Pair, Queue, Span, Step, Thresholds};
use endpoint::ends::EndsOutcome;

// Whether the only place used is a wait.
pub fn has_only_wait(p: Pair) -> bool
    ensures { result ≡ only_wait p.places }
{
    port::places::is_only_wait(p.places.packets, p.places.waits)
}

// Whether the waits are to be visited: where one fires, and where the only place used is a wait, which is as quickly
// visited as asked.
// The second clause says of the pair what a caller that keeps it behind a reference cannot read off it.
pub fn needs_visit(p: Pair, r: EndsOutcome) -> bool
    ensures needed { result ≡ needs_visit r p.places }
    ensures size { length p.places.table ≡ 128 }
{
    if !r.fires {
        return false;
    }
    if has_only_wait(p) {
        return true;
    }
    port::visits::any_due(p.places, r)
}

// Visits the waits of all changes of a call. Here and in `close_waits` the four stand one by one, each into the same variable: as a function of its own,
// inlined or not, they take a table more of stack, and gone over as an array a twentieth longer.
pub fn visit_each(p: Pair, r: EndsOutcome) -> Pair
    ensures { result ≡ visited_all r p }
{
    let mut t = p.places;
    t = port::visits::visited(t, r.visits.first);
    t = port::visits::visited(t, r.visits.second);
    t = port::visits::visited(t, r.more.first);
    t = port::visits::visited(t, r.more.second);
    parts::with_places(p, t)
}

// The same for a pair whose only place used is a wait. It stands apart for speed: the first place alone is stored, and not the table.
pub fn visit_only(p: Pair, r: EndsOutcome) -> Pair
    ensures { result ≡ pick (only_wait p.places) (visited_all r p) p }
{
    parts::with_first_places(p, port::visits::visited_alone(p.places, r))
}

// The same end, put together from its fields. Copied whole, the two ends of an outcome are stored and loaded in parts that do not match, for which a
// processor waits.
fn by_fields(e: Endpoint) -> Endpoint
    ensures { result ≡ e }
{
    let t = e.thresholds;
    let q = e.queue;
    Endpoint {
        closed: e.closed,
        read_disabled: e.read_disabled,
        rights: e.rights,
        signals: e.signals,
        thresholds: Thresholds {
            read: t.read,
            write: t.write,
        },
        queue: Queue {
            bytes: Span {
                start: q.bytes.start,
                count: q.bytes.count,
            },
            lengths: Span {
                start: q.lengths.start,
                count: q.lengths.count,
            },
        },
    }
}

// The pair with the ends of an outcome.
pub fn with_outcome(p: Pair, r: EndsOutcome) -> Pair
    ensures { result ≡ with_outcome r p }
{
    Pair {
        datagram: p.datagram,
        spare1: p.spare1,
        spare2: p.spare2,
        capacity: p.capacity,
        one: by_fields(r.one),
        two: by_fields(r.two),
        places: p.places,
    }
}

fn visit(p: Pair, r: EndsOutcome) -> Pair
    ensures { result ≡ pick (needs_visit r p.places) (visited_all r p) p }
{
    if !needs_visit(p, r) {
        return p;
    }
    if has_only_wait(p) {
        return visit_only(p, r);
    }
    visit_each(p, r)
}

// The step of a call with this outcome: the waits are visited where one can fire.
pub fn settle(p: Pair, r: EndsOutcome) -> Step
    ensures { result ≡ settled_step r p }
{
    Step {
        pair: visit(with_outcome(p, r), r),
        answer: r.answer,
    }
}

// The pair without the waits of an end.
pub fn without_waits(p: Pair, handle: u32) -> Pair
    ensures { result ≡ without_waits (is_one handle) p }
{
    let n = port::waits::drop_waits(p.places, handle == 1);
    parts::with_places(p, n.places)
}

// The pair without the waits of an end, once the others are visited.
pub fn close_waits(p: Pair, handle: u32, r: EndsOutcome) -> Pair
    ensures { result ≡ visited_all r (without_waits (is_one handle) p) }
{
    let n = port::waits::drop_waits(p.places, handle == 1);
    let mut t = n.places;
    t = port::visits::visited(t, r.visits.first);
    t = port::visits::visited(t, r.visits.second);
    t = port::visits::visited(t, r.more.first);
    t = port::visits::visited(t, r.more.second);
    parts::with_places(p, t)
}
