// What a write and a read over both ends of a pair change; the modules write and read compute it.
// After `Socket::write` and `Socket::read` of ipc/socket.rs.
ghost use Rattle.std.specs.Prelude.{◌≡◌};
ghost use Rattle.transfer.specs.change.Changes.{kept_transfer};

use definition::{Answer, Queue};

// What a write or a read changes: the queue that bytes went into or left, the bits that the caller's word loses, and those that its peer's word gains
// if the peer is open.
#[derive(Clone, Copy)]
pub struct Exchange {
    pub queue: Queue,
    pub lost: u32,
    pub gained: u32,
}

// The answer of a write or a read, and what it changes, if it changes anything.
#[derive(Clone, Copy)]
pub struct Transfer {
    pub change: Option<Exchange>,
    pub answer: Answer,
}

// A call that changes nothing.
pub fn kept(answer: Answer) -> Transfer
    ensures { result ≡ kept_transfer answer }
{
    Transfer {
        change: None,
        answer,
    }
}
