// Write over both ends of a pair: the bytes go from the caller into the peer's ring, and the waits are visited later.
// After `Socket::write` of ipc/socket.rs.
ghost use Rattle.std.specs.Prelude.{◌≡◌, true, ◌+◌, ◌≤◌, ◌<◌, ◌^◌};
ghost use Rattle.definition.specs.Pair.{own, peer};
ghost use Rattle.definition.specs.Write.{write_effect, fed_queue, ring_fed, table_fed};
ghost use Rattle.endpoint.specs.ends.AtOnce.{moved_by};
ghost use Rattle.transfer.specs.write.WriteChange.{fed_effect, wrote_by, write_visits_none, Feed, Wrote};

use crate::change::{Exchange, Transfer, kept};
use answers::write::write_answer;
use definition::{Ends, Queue};
use endpoint::bits::{gained_by_peer, lost_by_writer};
use endpoint::ends::{EndsOutcome, Moved, Pending, Visits};
use endpoint::signal::changed;

pub mod user_memory;

// The queue that m bytes went into.
fn fed_queue(datagram: bool, m: u32, mut q: Queue) -> Queue
    requires { (q.bytes.count + m < 2 ^ 32) × (datagram ≡ true → q.lengths.count + 1 < 2 ^ 32) }
    ensures { result ≡ fed_queue datagram m q }
{
    q.bytes.count += m;
    if datagram {
        q.lengths.count += 1;
    }
    q
}

// Copies m bytes behind those queued at the peer, and on datagram pairs puts their length behind those queued.
fn feed(p: Ends, one: bool, m: u32, bytes: &[u8], ring: &mut [u8], table: &mut [u32])
    requires { Feed p.datagram p.capacity (peer one p).queue m bytes.now ring.old table.old }
    ensures ring_after { ring.new ≡ ring_fed p.capacity (peer one p).queue m bytes.now ring.old }
    ensures table_after { table.new ≡ table_fed p.datagram p.capacity (peer one p).queue m table.old }
{
    let capacity = p.capacity as usize;
    let q = endpoint::ends::peer(p, one).queue;
    let at = ring::place::place(capacity, q.bytes.start as usize, q.bytes.count as usize);
    ring::copy::copy_in(ring, capacity, at, bytes, m as usize);
    if p.datagram {
        let next = ring::place::place(capacity, q.lengths.start as usize, q.lengths.count as usize);
        table[next] = m;
    }
}

// What changes where m bytes went in.
fn fed(p: Ends, one: bool, m: u32) -> Exchange
    requires { ((peer one p).queue.bytes.count + m ≤ p.capacity) × (p.datagram ≡ true → (peer one p).queue.lengths.count + 1 < 2 ^ 32) }
    ensures { fed_effect (own one p) (peer one p) result ≡ write_effect p.datagram p.capacity (own one p) (peer one p) m }
{
    let own = endpoint::ends::own(p, one);
    let peer = endpoint::ends::peer(p, one);
    let queued = peer.queue.bytes.count + m;
    let gained = gained_by_peer(peer, queued);
    let lost = lost_by_writer(own, p.capacity - queued);
    let queue = fed_queue(p.datagram, m, peer.queue);
    Exchange {
        queue,
        lost,
        gained,
    }
}

// A write by the end of a handle: both ends stay as they are, and it gives what changes. The ring and the table are the peer's.
pub fn write_transfer(
    p: Ends,
    handle: u32,
    ring: &mut [u8],
    table: &mut [u32],
    bytes: &[u8],
) -> Transfer
    ensures { Wrote p handle bytes.now ring.old ring.new table.old table.new result }
{
    let answer = write_answer(p, handle, ring, table, bytes.len());
    let m = endpoint::answer::count_of(answer);
    if m == 0 {
        return kept(answer);
    }
    let one = handle == 1;
    feed(p, one, m, bytes, ring, table);
    let change = Some(fed(p, one, m));
    Transfer { change, answer }
}

// The changes of both words by a write.
fn fed_visits(p: Ends, one: bool, x: Exchange) -> Visits
    ensures { result ≡ (moved_by one (fed_effect (own one p) (peer one p) x)).visits }
{
    let first = Pending {
        one: !one,
        word: endpoint::ends::peer(p, one).signals,
        clear: 0,
        set: x.gained,
    };
    let second = Pending {
        one,
        word: endpoint::ends::own(p, one).signals,
        clear: x.lost,
        set: 0,
    };
    Visits { first, second }
}

// The ends after a write.
fn fed_moved(p: Ends, one: bool, x: Exchange) -> Moved
    ensures { result ≡ moved_by one (fed_effect (own one p) (peer one p) x) }
{
    let own = endpoint::ends::own(p, one);
    let peer = endpoint::ends::peer(p, one);
    let fed = endpoint::end::with_queue(peer, x.queue);
    Moved {
        own: endpoint::end::with_signals(own, changed(own.signals, x.lost, 0)),
        peer: endpoint::end::with_signals(fed, changed(peer.signals, 0, x.gained)),
        visits: fed_visits(p, one, x),
    }
}

// The outcome of a write that gives this.
pub fn write_outcome(p: Ends, handle: u32, t: Transfer) -> EndsOutcome
    ensures { result ≡ wrote_by p handle t }
{
    let Some(x) = t.change else {
        return endpoint::ends::unchanged(p, t.answer);
    };
    let one = handle == 1;
    let moved = fed_moved(p, one, x);
    endpoint::ends::put_back(p.waits, one, t.answer, moved, endpoint::ends::no_visits())
}

// Whether a write that gives this changes something, and no wait can fire by it.
pub fn is_write_without_visit(p: Ends, handle: u32, t: Transfer) -> bool
    ensures { result ≡ write_visits_none p handle t.change }
{
    match t.change {
        None => false,
        Some(x) => !endpoint::ends::can_fire(p.waits, fed_visits(p, handle == 1, x)),
    }
}
