// The tests that come before a call's own, over both ends of a pair: the record, the slices lent, the handle. Each answers done, with no record,
// where it passes. After `Socket` of ipc/socket.rs.
ghost use Rattle.std.specs.Prelude.{◌≡◌, []};
ghost use Rattle.definition.specs.Pair.{is_handle};
ghost use Rattle.std.specs.declared.result.Result.TheVariants.{Ok};
ghost use Rattle.definition.specs.declared.Record.TheVariants.{Empty};
ghost use Rattle.definition.specs.declared.Status.TheVariants.{InvalidArgs, Internal};
ghost use Rattle.definition.specs.Status.{pick, refuse_if, ◌then◌};
ghost use Rattle.definition.specs.Tests.{sound_ends, sound_test, lent_of, first_length, bad_first, slices_test, table_test, is_open, handle_test, opening_test};

use definition::{Answer, Ends, Queue, Record, Status};

// Whether the record is not INTERNAL.
fn is_sound(p: Ends) -> bool
    ensures { result ≡ sound_ends p }
{
    0 < p.capacity
        && p.capacity <= 262144
        && port::places::is_sound(p.packets, p.waits)
        && endpoint::end::is_sound(p.one.queue, p.datagram, p.capacity)
        && endpoint::end::is_sound(p.two.queue, p.datagram, p.capacity)
}

// The record.
pub fn sound_test(p: Ends) -> Answer
    ensures { result ≡ sound_test p }
{
    if !is_sound(p) {
        return Err(Status::Internal);
    }
    Ok(Record::Empty)
}

// Whether a handle names an end. A handle is a number, since every other number is refused (`handle_test` of the definition).
pub fn is_handle(handle: u32) -> bool
    ensures { result ≡ is_handle handle }
{
    handle == 1 || handle == 2
}

// What is lent, by whether it is too short, then the first queued length; with a handle that names no end neither is tested.
fn lent_test(handle: u32, short: bool, datagram: bool, q: Queue, table: &[u32]) -> Answer
    ensures { result ≡ pick (is_handle handle) (refuse_if short InvalidArgs then refuse_if (bad_first datagram q (first_length datagram q table.now)) Internal) (Ok Empty) }
{
    if !is_handle(handle) {
        return Ok(Record::Empty);
    }
    if short {
        return Err(Status::InvalidArgs);
    }
    if endpoint::end::bad_first(q, datagram, endpoint::end::first_length(q, datagram, table)) {
        return Err(Status::Internal);
    }
    Ok(Record::Empty)
}

// The lengths of a ring and a table that are lent, and the first queued length.
pub fn slices_test(
    datagram: bool,
    capacity: u32,
    handle: u32,
    q: Queue,
    ring: &[u8],
    table: &[u32],
) -> Answer
    ensures { result ≡ slices_test datagram capacity handle q (lent_of datagram q ring.now table.now) }
{
    let short = endpoint::end::short_slices(datagram, capacity, ring.len(), table.len());
    lent_test(handle, short, datagram, q, table)
}

// The length of a table that is lent alone, and the first queued length.
pub fn table_test(datagram: bool, capacity: u32, handle: u32, q: Queue, table: &[u32]) -> Answer
    ensures { result ≡ table_test datagram capacity handle q (lent_of datagram q [] table.now) }
{
    let short = endpoint::end::short_table(datagram, capacity, table.len());
    lent_test(handle, short, datagram, q, table)
}

// Whether a handle names an end that is open.
fn is_open(p: Ends, handle: u32) -> bool
    ensures { result ≡ is_open p handle }
{
    is_handle(handle) && !endpoint::ends::own(p, handle == 1).closed
}

// The handle.
pub fn handle_test(p: Ends, handle: u32) -> Answer
    ensures { result ≡ handle_test p handle }
{
    if !is_open(p, handle) {
        return Err(Status::BadHandle);
    }
    Ok(Record::Empty)
}

// The record, then the handle: what most calls test first.
pub fn opening_test(p: Ends, handle: u32) -> Answer
    ensures { result ≡ opening_test p handle }
{
    sound_test(p)?;
    handle_test(p, handle)
}
