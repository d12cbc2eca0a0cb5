// Wait.
ghost use Rattle.std.specs.Prelude.{◌≡◌};
ghost use Rattle.definition.specs.Port.{wait_answer};

use crate::tests::opening_test;
use definition::{Answer, Ends, Record, Status};

// The tests of a wait. The edge is a number, 0 or 1, since every other number is refused here (`wait_answer` of the definition).
pub fn wait_answer(p: Ends, handle: u32, edge: u8) -> Answer
    ensures { result ≡ wait_answer p handle edge }
{
    opening_test(p, handle)?;
    if 1 < edge {
        return Err(Status::InvalidArgs);
    }
    if p.packets + p.waits == 128 {
        return Err(Status::NoResources);
    }
    Ok(Record::Empty)
}
