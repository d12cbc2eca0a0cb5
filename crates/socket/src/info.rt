// Info.
ghost use Rattle.std.specs.Prelude.{[]};
ghost use Rattle.definition.specs.Info.{AsksInfo};
ghost use Rattle.socket.specs.Step.{inner_step};

use crate::{SocketPair, SocketStep, parts};

impl SocketPair {
    // What an end says of its queue and its peer's. The table is its own; only datagram pairs look at it.
    pub fn get_info(self, handle: u32, table: &[u32]) -> SocketStep
        ensures { AsksInfo self.inner handle table.now (inner_step result) }
    {
        SocketStep {
            pair: self,
            answer: answers::control_calls::info_answer(parts::ends_of(self.inner), handle, table),
        }
    }
}
