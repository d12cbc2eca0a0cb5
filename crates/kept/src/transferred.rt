// A write and a read that can fire no wait, the read with an open peer: what they change, put into the pair.
ghost use Rattle.std.specs.Prelude.{◌≡◌};
ghost use Rattle.definition.specs.Status.{pick};
ghost use Rattle.definition.specs.Signal.{changed_word};
ghost use Rattle.definition.specs.Pair.{with_queue, with_signals, is_one};
ghost use Rattle.kept.specs.transferred.Transferred.{transferred_pair, wrote_pair};

use definition::{Endpoint, Pair, Queue};
use endpoint::choice::pick;
use endpoint::ends::queue_if;
use endpoint::signal::changed;
use transfer::change::Exchange;

// The end with its word changed, and with this queue if it takes it.
fn end_with(e: Endpoint, takes: bool, queue: Queue, lost: u32, gained: u32) -> Endpoint
    ensures { result ≡ with_signals (changed_word lost gained e.signals) (with_queue (pick takes queue e.queue) e) }
{
    let next = endpoint::end::with_queue(e, queue_if(takes, queue, e.queue));
    endpoint::end::with_signals(next, changed(e.signals, lost, gained))
}

// The pair after a call by end 1, or else by end 2: the caller's word loses bits, its peer's gains some, and the queue is that of end 1 if `takes`, else
// that of end 2.
fn with_transfer(p: Pair, one: bool, takes: bool, x: Exchange) -> Pair
    ensures { result ≡ transferred_pair one takes x p }
{
    let places = p.places;
    let first = end_with(
        p.one,
        takes,
        x.queue,
        pick(one, x.lost, 0),
        pick(one, 0, x.gained),
    );
    let second = end_with(
        p.two,
        !takes,
        x.queue,
        pick(one, 0, x.lost),
        pick(one, x.gained, 0),
    );
    Pair {
        datagram: p.datagram,
        spare1: p.spare1,
        spare2: p.spare2,
        capacity: p.capacity,
        one: first,
        two: second,
        places,
    }
}

// The pair after a write by the end of a handle that changes this.
pub fn with_write(p: Pair, handle: u32, x: Exchange) -> Pair
    ensures { result ≡ wrote_pair (is_one handle) x p }
{
    let one = handle == 1;
    with_transfer(p, one, !one, x)
}

// The pair after a read by the end of a handle that changes this; it is that of a read where the peer is open.
pub fn with_read(p: Pair, handle: u32, x: Exchange) -> Pair
    ensures { result ≡ transferred_pair (is_one handle) (is_one handle) x p }
{
    let one = handle == 1;
    with_transfer(p, one, one, x)
}
