// The answer of create: its numbers, then the lengths of the rings and tables. After `Socket` of ipc/socket.rs.
ghost use Rattle.std.specs.Prelude.{◌≡◌};
ghost use Rattle.definition.specs.Create.{numbers_answer, create_answer};
ghost use Rattle.answers.specs.create.Held.{held_rights};

use definition::{Answer, Record, Status};
use endpoint::end::short_slices;

// The numbers of create: kind, capacity, rights. They are numbers, and the kind is no enum, since every other number is refused here
// (`create_answer` of the definition).
fn numbers_answer(kind: u32, capacity: u32, rights_one: u32, rights_two: u32) -> Answer
    ensures { result ≡ numbers_answer kind capacity rights_one rights_two }
{
    if 1 < kind || capacity == 0 || 262144 < capacity || 7 < rights_one || 7 < rights_two {
        return Err(Status::InvalidArgs);
    }
    Ok(Record::Empty)
}

// The numbers, then the lengths of the rings and tables.
pub fn create_answer(
    kind: u32,
    capacity: u32,
    rights_one: u32,
    rights_two: u32,
    ring_one: usize,
    table_one: usize,
    ring_two: usize,
    table_two: usize,
) -> Answer
    ensures { result ≡ create_answer kind capacity rights_one rights_two ring_one table_one ring_two table_two }
{
    numbers_answer(kind, capacity, rights_one, rights_two)?;
    let datagram = kind == 1;
    if short_slices(datagram, capacity, ring_one, table_one)
        || short_slices(datagram, capacity, ring_two, table_two)
    {
        return Err(Status::InvalidArgs);
    }
    Ok(Record::Empty)
}

// The rights word that an end holds in 16 bits. Create refuses a word above 7; of such a word this is 0.
pub fn held_rights(rights: u32) -> u16
    ensures { result ≡ held_rights rights }
{
    if 7 < rights {
        return 0;
    }
    rights as u16
}
