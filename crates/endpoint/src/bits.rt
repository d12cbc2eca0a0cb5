// The bits that a write and a read change in the words of the two ends. After ipc/socket.rs.
ghost use Rattle.std.specs.Prelude.{◌≡◌};
ghost use Rattle.definition.specs.Signal.{bit_if, missed, reached};
ghost use Rattle.definition.specs.Write.{gained_by_peer, lost_by_writer};
ghost use Rattle.definition.specs.Read.{gained_by_writer, lost_by_reader};

use crate::choice::pick;
use crate::signal::{READ_THRESHOLD, READABLE, WRITABLE, WRITE_THRESHOLD};
use definition::Endpoint;

// Whether a threshold above 0 is reached.
pub fn is_reached(threshold: u64, n: u32) -> bool
    ensures { result ≡ reached threshold n }
{
    0 < threshold && threshold <= u64::from(n)
}

// Whether a threshold above 0 is not reached. No number is below a threshold of 0.
pub fn is_missed(threshold: u64, n: u32) -> bool
    ensures { result ≡ missed threshold n }
{
    u64::from(n) < threshold
}

pub fn bit_if(test: bool, bit: u32) -> u32
    ensures { result ≡ bit_if test bit }
{
    pick(test, bit, 0)
}

// The bits that the peer of a writer gains; its queue then holds q bytes.
pub fn gained_by_peer(peer: Endpoint, q: u32) -> u32
    ensures { result ≡ gained_by_peer peer q }
{
    let readable = bit_if(peer.queue.bytes.count == 0, READABLE);
    let threshold = bit_if(is_reached(peer.thresholds.read, q), READ_THRESHOLD);
    readable | threshold
}

// The bits that a writer loses, with so much space left.
pub fn lost_by_writer(own: Endpoint, space: u32) -> u32
    ensures { result ≡ lost_by_writer own space }
{
    let writable = bit_if(space == 0, WRITABLE);
    let threshold = bit_if(is_missed(own.thresholds.write, space), WRITE_THRESHOLD);
    writable | threshold
}

// The bits that a reader loses; its queue then holds q bytes.
pub fn lost_by_reader(own: Endpoint, q: u32) -> u32
    ensures { result ≡ lost_by_reader own q }
{
    let threshold = bit_if(is_missed(own.thresholds.read, q), READ_THRESHOLD);
    let readable = bit_if(q == 0, READABLE);
    threshold | readable
}

// The bits that the peer of a reader gains, with so much space in the queue that it writes to.
pub fn gained_by_writer(peer: Endpoint, space: u32, was_full: bool) -> u32
    ensures { result ≡ gained_by_writer peer space was_full }
{
    let threshold = bit_if(is_reached(peer.thresholds.write, space), WRITE_THRESHOLD);
    let writable = bit_if(was_full, WRITABLE);
    threshold | writable
}
