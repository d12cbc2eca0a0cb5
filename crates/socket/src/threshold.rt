// The thresholds: set and asked.
ghost use Rattle.definition.specs.Threshold.{AsksThresholds, SetsReadThreshold, SetsWriteThreshold};
ghost use Rattle.socket.specs.Step.{inner_step};

use crate::{SocketPair, SocketStep, deferred, parts};

impl SocketPair {
    // READ_THRESHOLD shows while at least so many bytes are queued at this end; 0 is none.
    pub fn set_read_threshold(self, handle: u32, threshold: u64) -> SocketStep
        ensures { SetsReadThreshold self.inner handle threshold (inner_step result) }
    {
        let r = control::threshold::read_threshold_ends(
            parts::ends_of(self.inner),
            handle,
            threshold,
        );
        deferred::settle(self.inner, r).into()
    }

    // While the peer is open, WRITE_THRESHOLD shows whether its queue has at least so much space; 0 is none. The bit stays as it is when the peer closes.
    pub fn set_write_threshold(self, handle: u32, threshold: u64) -> SocketStep
        ensures { SetsWriteThreshold self.inner handle threshold (inner_step result) }
    {
        let r = control::threshold::write_threshold_ends(
            parts::ends_of(self.inner),
            handle,
            threshold,
        );
        deferred::settle(self.inner, r).into()
    }

    // Both thresholds of an end.
    pub fn get_rx_tx_threshold(self, handle: u32) -> SocketStep
        ensures { AsksThresholds self.inner handle (inner_step result) }
    {
        SocketStep {
            pair: self,
            answer: answers::threshold::thresholds_answer(parts::ends_of(self.inner), handle),
        }
    }
}
