// Write.
ghost use Rattle.definition.specs.Write.{Writes};
ghost use Rattle.socket.specs.Step.{inner_step};

use crate::{SocketPair, SocketStep, deferred, parts};

impl SocketPair {
    // Writes to the peer's queue. The ring and the table are the peer's; they stand one by one, as `murgwethan_write` has them for C, and `Writes` of
    // the definition.
    pub fn write(self, handle: u32, ring: &mut [u8], table: &mut [u32], bytes: &[u8]) -> SocketStep
        ensures { Writes self.inner handle bytes.now ring.old ring.new table.old table.new (inner_step result) }
    {
        let e = parts::ends_of(self.inner);
        let t = transfer::write::write_transfer(e, handle, ring, table, bytes);
        let r = transfer::write::write_outcome(e, handle, t);
        deferred::settle(self.inner, r).into()
    }
}
