// Close.
ghost use Rattle.definition.specs.Close.{Closes};
ghost use Rattle.socket.specs.Step.{inner_step};

use crate::{SocketPair, SocketStep, deferred, parts};

impl SocketPair {
    // Closes an end. What it had sent stays queued at the peer.
    pub fn close(self, handle: u32) -> SocketStep
        ensures { Closes self.inner handle (inner_step result) }
    {
        let mut p = self.inner;
        let r = control::ends::close_ends(parts::ends_of(p), handle);
        if r.fires {
            p = deferred::without_waits(p, handle);
        }
        deferred::settle(p, r).into()
    }
}
