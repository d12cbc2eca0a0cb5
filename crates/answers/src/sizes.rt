// How many bytes a read delivers, and what the info record says of both queues. After ipc/socket.rs.
ghost use Rattle.std.specs.Prelude.{◌≡◌};
ghost use Rattle.definition.specs.Read.{available_in, empty_answer, read_size};
ghost use Rattle.definition.specs.Info.{info_of, unless_closed};

use definition::{Answer, Endpoint, Record, SocketInfo, Status};
use endpoint::bits::bit_if;
use endpoint::choice::pick;

// The bytes that one read can deliver.
fn available(datagram: bool, own: Endpoint, first: u32) -> u32
    ensures { result ≡ available_in datagram own first }
{
    pick(datagram, first, own.queue.bytes.count)
}

fn empty_answer(own: Endpoint, peer: Endpoint) -> Answer
    ensures { result ≡ empty_answer own peer }
{
    if peer.closed {
        return Err(Status::PeerClosed);
    }
    if own.read_disabled {
        return Err(Status::BadState);
    }
    Err(Status::ShouldWait)
}

// How many bytes a read into n bytes delivers. What is queued can be read whether or not reading is disabled.
pub fn read_size(datagram: bool, own: Endpoint, peer: Endpoint, first: u32, n: usize) -> Answer
    ensures { result ≡ read_size datagram own peer first n }
{
    if own.queue.bytes.count == 0 {
        return empty_answer(own, peer);
    }
    Ok(Record::Count(n.min(available(datagram, own, first) as usize) as u32))
}

fn unless_closed(closed: bool, n: u32) -> u64
    ensures { result ≡ unless_closed closed n }
{
    pick(closed, 0, n) as u64
}

// What a socket says of its queue and its peer's. Like the sizes, it is given just the parts of a pair that it looks at, one by one, as `info_of`
// of the definition is.
pub fn get_info(
    datagram: bool,
    capacity: u32,
    own: Endpoint,
    peer: Endpoint,
    first: u32,
) -> SocketInfo
    ensures { result ≡ info_of datagram capacity own peer first }
{
    SocketInfo {
        options: bit_if(datagram, 1),
        rx_buf_max: capacity as u64,
        rx_buf_size: own.queue.bytes.count as u64,
        rx_buf_available: available(datagram, own, first) as u64,
        tx_buf_max: unless_closed(peer.closed, capacity),
        tx_buf_size: unless_closed(peer.closed, peer.queue.bytes.count),
    }
}
