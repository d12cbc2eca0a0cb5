// The table of places in which waits stand until they fire and packets until they are taken. After signal/port.rs. The tests take the two counts and no
// table: `Ends` has the counts alone, and the compiler copies a table that is passed whole. A table of at most 128 used places has no type of its own:
// the record is C's, which may hand over any counts, and a copy into another type is one more of 3 KB; so each function that needs such a table requires it.
ghost use Rattle.std.specs.Prelude.{◌≡◌, ◌+◌, leb, eqb};
ghost use Rattle.definition.specs.Status.{pick, ◌and◌, refuse_unless};
ghost use Rattle.definition.specs.declared.Status.TheVariants.{Internal};
ghost use Rattle.definition.specs.Port.{end_number, new_places};

use definition::{Answer, Place, Places, Record, Status};
use endpoint::choice::pick;

// A place that is not used.
pub const FREE: Place = Place {
    key: 0,
    mask: 0,
    observed: 0,
    end: 0,
};

// A table with no wait and no packet.
pub fn new_places() -> Places
    ensures { result ≡ new_places }
{
    Places {
        packets: 0,
        waits: 0,
        table: [FREE; 128],
    }
}

// Whether no more than so many places are used. The sum of the two counts is never taken, as it can be too large.
pub fn uses_at_most(packets: usize, waits: usize, most: usize) -> bool
    ensures { result ≡ leb (packets + waits) most }
{
    packets <= most && waits <= most - packets
}

// Whether no more than 128 places are used.
pub fn is_sound(packets: usize, waits: usize) -> bool
    ensures { result ≡ leb (packets + waits) 128 }
{
    uses_at_most(packets, waits, 128)
}

// Whether no place is used.
pub fn is_unused(packets: usize, waits: usize) -> bool
    ensures { result ≡ (eqb packets 0 and eqb waits 0) }
{
    packets == 0 && waits == 0
}

// Whether the only place used is a wait.
pub fn is_only_wait(packets: usize, waits: usize) -> bool
    ensures { result ≡ (eqb packets 0 and eqb waits 1) }
{
    packets == 0 && waits == 1
}

// Whether the only place used is a packet.
pub fn is_only_packet(packets: usize, waits: usize) -> bool
    ensures { result ≡ (eqb packets 1 and eqb waits 0) }
{
    packets == 1 && waits == 0
}

// The number of an end in a place: C's record holds 1, 2 or 0, so it is a number and no enum.
pub fn end_number(one: bool) -> u64
    ensures { result ≡ end_number one }
{
    pick(one, 1, 2)
}

// The answer to an operation that every sound table allows.
pub fn sound_answer(sound: bool) -> Answer
    ensures { result ≡ refuse_unless sound Internal }
{
    if sound {
        Ok(Record::Empty)
    } else {
        Err(Status::Internal)
    }
}
