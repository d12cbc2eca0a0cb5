// Read and peek.
ghost use Rattle.definition.specs.Read.{Reads};
ghost use Rattle.socket.specs.Step.{inner_step};

use crate::{SocketPair, SocketStep, deferred, parts};

impl SocketPair {
    // Reads the front of the own queue into the buffer. The ring and the table are the reader's. A peek leaves the bytes in the queue.
    pub fn read(
        self,
        handle: u32,
        peek: bool,
        ring: &[u8],
        table: &[u32],
        buffer: &mut [u8],
    ) -> SocketStep
        ensures { Reads self.inner handle peek ring.now table.now buffer.old buffer.new (inner_step result) }
    {
        let e = parts::ends_of(self.inner);
        let t = transfer::read::read_transfer(e, handle, peek, ring, table, buffer);
        let r = transfer::read::read_outcome(e, handle, t);
        deferred::settle(self.inner, r).into()
    }
}
