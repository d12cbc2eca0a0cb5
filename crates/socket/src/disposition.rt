// Disposition: whether each end may write.
ghost use Rattle.definition.specs.Disposition.{Disposes};
ghost use Rattle.socket.specs.Step.{inner_step};

use crate::{SocketPair, SocketStep, deferred, parts};
use definition::Disposition;

impl SocketPair {
    // Disables or enables the writing of this end, then of its peer.
    pub fn set_disposition(
        self,
        handle: u32,
        disposition: Disposition,
        peer_disposition: Disposition,
    ) -> SocketStep
        ensures { Disposes self.inner handle disposition peer_disposition (inner_step result) }
    {
        let r = control::disposition::dispose_ends(
            parts::ends_of(self.inner),
            handle,
            disposition,
            peer_disposition,
        );
        deferred::settle(self.inner, r).into()
    }
}
