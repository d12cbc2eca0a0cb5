// Shutdown.
ghost use Rattle.definition.specs.Shutdown.{Shuts};
ghost use Rattle.socket.specs.Step.{inner_step};

use crate::{SocketPair, SocketStep, deferred, parts};

impl SocketPair {
    // Ends reading, writing or both at this end; an open peer gets the same with both flags negated.
    pub fn shutdown(self, handle: u32, read: bool, write: bool) -> SocketStep
        ensures { Shuts self.inner handle read write (inner_step result) }
    {
        let r = control::ends::shutdown_ends(parts::ends_of(self.inner), handle, read, write);
        deferred::settle(self.inner, r).into()
    }
}
