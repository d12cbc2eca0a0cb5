// Read and peek over both ends of a pair: the bytes go from the ring to the caller, and the waits are visited later.
// After `Socket::read` of ipc/socket.rs.
ghost use Rattle.std.specs.Prelude.{◌≡◌, ◌≤◌, ◌<◌, length};
ghost use Rattle.std.proofs.Math.Seq.{paste};
ghost use Rattle.definition.specs.Ring.{front};
ghost use Rattle.definition.specs.Pair.{own, peer};
ghost use Rattle.definition.specs.Read.{read_effect, leaving, drained_queue};
ghost use Rattle.endpoint.specs.ends.AtOnce.{moved_by};
ghost use Rattle.transfer.specs.read.ReadChange.{drained_effect, read_by, read_visits_none, DrainChanges, Drain, Read};

use crate::change::{Exchange, Transfer, kept};
use answers::read::read_answer;
use definition::{Ends, Queue};
use endpoint::bits::{gained_by_writer, lost_by_reader};
use endpoint::choice::pick;
use endpoint::ends::{EndsOutcome, Moved, NO_VISIT, Pending, Visits};
use endpoint::signal::changed;

pub mod user_memory;

// The queue after n bytes left it.
fn drained_queue(datagram: bool, capacity: u32, n: u32, mut q: Queue) -> Queue
    requires { Drain datagram capacity n q }
    ensures { result ≡ drained_queue datagram capacity n q }
{
    let start = ring::place::place(capacity as usize, q.bytes.start as usize, n as usize);
    q.bytes.start = start as u32;
    q.bytes.count -= n;
    if datagram {
        let next = ring::place::place(capacity as usize, q.lengths.start as usize, 1);
        q.lengths.start = next as u32;
        q.lengths.count -= 1;
    }
    q
}

// Copies the first k bytes of a queue into the buffer.
fn deliver(capacity: u32, start: u32, k: u32, ring: &[u8], buffer: &mut [u8])
    requires { (start < capacity) × (k ≤ capacity) × (capacity ≤ length ring.now) × (k ≤ length buffer.old) }
    ensures { buffer.new ≡ paste buffer.old 0 (front capacity start k ring.now) k }
{
    ring::copy::copy_out(ring, capacity as usize, start as usize, k as usize, buffer);
}

// What changes where n bytes left the own queue.
fn drained(p: Ends, one: bool, n: u32) -> Exchange
    requires { Drain p.datagram p.capacity n (own one p).queue }
    ensures { drained_effect (own one p) (peer one p) result ≡ read_effect p.datagram p.capacity (own one p) (peer one p) n }
{
    let own = endpoint::ends::own(p, one);
    let peer = endpoint::ends::peer(p, one);
    let q = own.queue;
    let queued = q.bytes.count - n;
    let lost = lost_by_reader(own, queued);
    let gained = gained_by_writer(peer, p.capacity - queued, q.bytes.count == p.capacity);
    let queue = drained_queue(p.datagram, p.capacity, n, q);
    Exchange {
        queue,
        lost,
        gained,
    }
}

// What changes by a read that delivered k bytes, of which there is one at least; a peek changes nothing. A datagram leaves whole.
fn drain(p: Ends, one: bool, peek: bool, first: u32, k: u32) -> Option<Exchange>
    requires { (k ≡ 0 → ⊥) × Drain p.datagram p.capacity (leaving p.datagram first k) (own one p).queue }
    ensures { DrainChanges p.datagram p.capacity (own one p) (peer one p) peek first k result }
{
    if peek {
        return None;
    }
    let n = pick(p.datagram, first, k);
    Some(drained(p, one, n))
}

// A read or peek by the end of a handle: both ends stay as they are, and it gives what changes. The ring and the table are the reader's. The first
// length is looked at only where bytes are delivered: the record has then passed its tests, so that no entry from C on is read.
pub fn read_transfer(
    p: Ends,
    handle: u32,
    peek: bool,
    ring: &[u8],
    table: &[u32],
    buffer: &mut [u8],
) -> Transfer
    ensures { Read p handle peek ring.now table.now buffer.old buffer.new result }
{
    let answer = read_answer(p, handle, ring, table, buffer.len());
    let k = endpoint::answer::count_of(answer);
    if k == 0 {
        return kept(answer);
    }
    let one = handle == 1;
    let q = endpoint::ends::own(p, one).queue;
    let first = endpoint::end::first_length(q, p.datagram, table);
    deliver(p.capacity, q.bytes.start, k, ring, buffer);
    let change = drain(p, one, peek, first, k);
    Transfer { change, answer }
}

// The changes of both words by a read; none of a closed peer's.
fn drained_visits(p: Ends, one: bool, x: Exchange) -> Visits
    ensures { result ≡ (moved_by one (drained_effect (own one p) (peer one p) x)).visits }
{
    let peer = endpoint::ends::peer(p, one);
    let first = Pending {
        one,
        word: endpoint::ends::own(p, one).signals,
        clear: x.lost,
        set: 0,
    };
    if peer.closed {
        return Visits {
            first,
            second: NO_VISIT,
        };
    }
    let second = Pending {
        one: !one,
        word: peer.signals,
        clear: 0,
        set: x.gained,
    };
    Visits { first, second }
}

// The ends after a read; a closed peer stays as it is.
fn drained_moved(p: Ends, one: bool, x: Exchange) -> Moved
    ensures { result ≡ moved_by one (drained_effect (own one p) (peer one p) x) }
{
    let own = endpoint::ends::own(p, one);
    let peer = endpoint::ends::peer(p, one);
    let drained = endpoint::end::with_queue(own, x.queue);
    let next = endpoint::end::with_signals(drained, changed(own.signals, x.lost, 0));
    let visits = drained_visits(p, one, x);
    if peer.closed {
        return Moved {
            own: next,
            peer,
            visits,
        };
    }
    Moved {
        own: next,
        peer: endpoint::end::with_signals(peer, changed(peer.signals, 0, x.gained)),
        visits,
    }
}

// The outcome of a read that gives this.
pub fn read_outcome(p: Ends, handle: u32, t: Transfer) -> EndsOutcome
    ensures { result ≡ read_by p handle t }
{
    let Some(x) = t.change else {
        return endpoint::ends::unchanged(p, t.answer);
    };
    let one = handle == 1;
    let moved = drained_moved(p, one, x);
    endpoint::ends::put_back(p.waits, one, t.answer, moved, endpoint::ends::no_visits())
}

// Whether a read that gives this changes something, its peer is open, and no wait can fire by it.
pub fn is_read_without_visit(p: Ends, handle: u32, t: Transfer) -> bool
    ensures { result ≡ read_visits_none p handle t.change }
{
    let one = handle == 1;
    match t.change {
        None => false,
        Some(x) => {
            !endpoint::ends::peer(p, one).closed
                && !endpoint::ends::can_fire(p.waits, drained_visits(p, one, x))
        }
    }
}
