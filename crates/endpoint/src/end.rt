// One end of a socket pair: its queue, its signal word, its thresholds; and the checks of a disposition. After `SocketInner` of ipc/socket.rs.
ghost use Rattle.std.specs.Prelude.{◌≡◌};
ghost use Rattle.definition.specs.Signal.{meets};
ghost use Rattle.definition.specs.Tests.{bad_first, first_length, has_length, short_slices, short_table, sound_lengths, sound_queue};
ghost use Rattle.definition.specs.Pair.{no_queue, shown, with_queue, with_read_disabled, with_signals, with_thresholds};
ghost use Rattle.definition.specs.Close.{closed_end};
ghost use Rattle.definition.specs.Create.{new_end, no_end};
ghost use Rattle.definition.specs.Disposition.{dispose_checks, enables, enables_over, has_backlog, has_open_backlog};

use crate::signal::{PEER_WRITE_DISABLED, WRITABLE};
use definition::{
    Answer, Disposition, Endpoint, Queue, Record, SignalWord, Span, Status, Thresholds,
};

const NO_SPAN: Span = Span { start: 0, count: 0 };

const NO_THRESHOLDS: Thresholds = Thresholds { read: 0, write: 0 };

pub fn no_queue() -> Queue
    ensures { result ≡ no_queue }
{
    Queue {
        bytes: NO_SPAN,
        lengths: NO_SPAN,
    }
}

fn has_sound_lengths(q: Queue) -> bool
    ensures { result ≡ sound_lengths q }
{
    q.lengths.count <= q.bytes.count && (q.lengths.count == 0) == (q.bytes.count == 0)
}

// Whether the queue is not INTERNAL.
pub fn is_sound(q: Queue, datagram: bool, capacity: u32) -> bool
    ensures { result ≡ sound_queue datagram capacity q }
{
    q.bytes.start < capacity
        && q.lengths.start < capacity
        && q.bytes.count <= capacity
        && (!datagram || has_sound_lengths(q))
}

fn has_length(q: Queue, datagram: bool) -> bool
    ensures { result ≡ has_length datagram q }
{
    datagram && 0 < q.lengths.count
}

// The first queued length; 0 where there is none.
pub fn first_length(q: Queue, datagram: bool, table: &[u32]) -> u32
    ensures { result ≡ first_length datagram q table.now }
{
    let at = q.lengths.start as usize;
    if has_length(q, datagram) && at < table.len() {
        table[at]
    } else {
        0
    }
}

// Whether this first length is INTERNAL.
pub fn bad_first(q: Queue, datagram: bool, first: u32) -> bool
    ensures { result ≡ bad_first datagram q first }
{
    has_length(q, datagram) && (first == 0 || q.bytes.count < first)
}

// Whether a table that is lent is too short.
pub fn short_table(datagram: bool, capacity: u32, table: usize) -> bool
    ensures { result ≡ short_table datagram capacity table }
{
    datagram && table < capacity as usize
}

// Whether a ring or a table that is lent is too short.
pub fn short_slices(datagram: bool, capacity: u32, ring: usize, table: usize) -> bool
    ensures { result ≡ short_slices datagram capacity ring table }
{
    ring < capacity as usize || short_table(datagram, capacity, table)
}

pub fn new_end(rights: u16) -> Endpoint
    ensures { result ≡ new_end rights }
{
    Endpoint {
        closed: false,
        read_disabled: false,
        rights,
        signals: WRITABLE,
        thresholds: NO_THRESHOLDS,
        queue: no_queue(),
    }
}

// An end that was never made.
pub fn no_end() -> Endpoint
    ensures { result ≡ no_end }
{
    Endpoint {
        closed: true,
        read_disabled: false,
        rights: 0,
        signals: 0,
        thresholds: NO_THRESHOLDS,
        queue: no_queue(),
    }
}

pub fn with_queue(e: Endpoint, queue: Queue) -> Endpoint
    ensures { result ≡ with_queue queue e }
{
    Endpoint { queue, ..e }
}

pub fn with_signals(e: Endpoint, word: u32) -> Endpoint
    ensures { result ≡ with_signals word e }
{
    Endpoint { signals: word, ..e }
}

pub fn with_read_disabled(e: Endpoint, off: bool) -> Endpoint
    ensures { result ≡ with_read_disabled off e }
{
    Endpoint {
        read_disabled: off,
        ..e
    }
}

pub fn with_thresholds(e: Endpoint, thresholds: Thresholds) -> Endpoint
    ensures { result ≡ with_thresholds thresholds e }
{
    Endpoint { thresholds, ..e }
}

// The same end closed: only its queue is gone.
pub fn into_closed(e: Endpoint) -> Endpoint
    ensures { result ≡ closed_end e }
{
    Endpoint {
        closed: true,
        queue: no_queue(),
        ..e
    }
}

// The word that the end shows.
pub fn shown(e: Endpoint) -> SignalWord
    ensures { result ≡ shown e }
{
    (!e.closed).then_some(e.signals)
}

// Whether the word has the bit.
pub fn has_bit(word: u32, bit: u32) -> bool
    ensures { result ≡ meets word bit }
{
    word & bit != 0
}

fn enables(d: Disposition) -> bool
    ensures { result ≡ enables d }
{
    matches!(d, Disposition::Enable)
}

// Whether the end's peer may not write and there are bytes to read.
fn has_backlog(e: Endpoint) -> bool
    ensures { result ≡ has_backlog e }
{
    has_bit(e.signals, PEER_WRITE_DISABLED) && 0 < e.queue.bytes.count
}

fn has_open_backlog(e: Endpoint) -> bool
    ensures { result ≡ has_open_backlog e }
{
    !e.closed && has_backlog(e)
}

// Whether writing would be enabled over a backlog.
fn enables_over(d: Disposition, backlog: bool) -> bool
    ensures { result ≡ enables_over d backlog }
{
    enables(d) && backlog
}

// Both checks of a disposition, which come before any change. The ends come one by one, as the definition `dispose_checks` takes them.
pub fn dispose_checks(
    own: Endpoint,
    peer: Endpoint,
    disposition: Disposition,
    peer_disposition: Disposition,
) -> Answer
    ensures { result ≡ dispose_checks own peer disposition peer_disposition }
{
    let over_peer = enables_over(disposition, has_open_backlog(peer));
    if over_peer || enables_over(peer_disposition, has_backlog(own)) {
        return Err(Status::BadState);
    }
    Ok(Record::Empty)
}
