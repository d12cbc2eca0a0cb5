// The answers of the calls on thresholds: their tests in their order, over both ends of a pair without its table of places. After `Socket` of
// ipc/socket.rs.
ghost use Rattle.std.specs.Prelude.{◌≡◌};
ghost use Rattle.definition.specs.Threshold.{read_threshold_answer, write_threshold_answer, thresholds_answer};

use crate::tests::opening_test;
use definition::{Answer, Ends, Record, Status};

// The tests of a read threshold.
pub fn read_threshold_answer(p: Ends, handle: u32, threshold: u64) -> Answer
    ensures { result ≡ read_threshold_answer p handle threshold }
{
    opening_test(p, handle)?;
    if (p.capacity as u64) < threshold {
        return Err(Status::InvalidArgs);
    }
    Ok(Record::Empty)
}

// The tests of a write threshold.
pub fn write_threshold_answer(p: Ends, handle: u32, threshold: u64) -> Answer
    ensures { result ≡ write_threshold_answer p handle threshold }
{
    opening_test(p, handle)?;
    let to = endpoint::ends::peer(p, handle == 1);
    if to.closed {
        return Err(Status::PeerClosed);
    }
    if (p.capacity as u64) < threshold {
        return Err(Status::InvalidArgs);
    }
    Ok(Record::Empty)
}

// The tests of the question for both, then the thresholds.
pub fn thresholds_answer(p: Ends, handle: u32) -> Answer
    ensures { result ≡ thresholds_answer p handle }
{
    opening_test(p, handle)?;
    Ok(Record::Limits(endpoint::ends::own(p, handle == 1).thresholds))
}
