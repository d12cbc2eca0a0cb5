// The answer of a read or peek over user memory: its tests in their order, over both ends of a pair. After zircon-syscall's socket.rs.
ghost use Rattle.std.specs.Prelude.{◌≡◌, eqb};
ghost use Rattle.definition.specs.Status.{◌or◌};
ghost use Rattle.definition.specs.Pair.{is_one, own};
ghost use Rattle.definition.specs.Tests.{lent_of};
ghost use Rattle.definition.specs.Read.{is_peek, user_read_answer};

use crate::lookup::{Buffer, RIGHT_READ, lookup};
use answers::sizes::read_size;
use answers::tests::{slices_test, sound_test};
use definition::{Answer, Ends, Status};

// The option of a read that is a peek.
pub const SOCKET_PEEK: u32 = 8;

// The options of a read are 0, or 8 for a peek. They are a number, since every other number is refused (`user_read_answer` of the definition).
fn has_read_options(options: u32) -> bool
    ensures { result ≡ (eqb options 0 or is_peek options) }
{
    options == 0 || options == SOCKET_PEEK
}

// The tests of a read or peek over user memory of `size` bytes.
// The range of all the bytes asked for is tested, also where fewer are queued.
pub fn read_answer(
    p: Ends,
    handle: u32,
    options: u32,
    b: Buffer,
    size: usize,
    ring: &[u8],
    table: &[u32],
) -> Answer
    ensures { result ≡ user_read_answer p (lent_of p.datagram (own (is_one handle) p).queue ring.now table.now) handle b.base size options b.address b.count b.count_at }
{
    sound_test(p)?;
    let from = endpoint::ends::own(p, handle == 1);
    let q = from.queue;
    slices_test(p.datagram, p.capacity, handle, q, ring, table)?;
    if crate::memory::is_null(b.address, b.count) || !has_read_options(options) {
        return Err(Status::InvalidArgs);
    }
    lookup(p, handle, RIGHT_READ)?;
    if !crate::memory::fits(b.base, size, b.address, b.count) {
        return Err(Status::InvalidArgs);
    }
    if !crate::memory::count_fits(b.base, size, b.count_at) {
        return Err(Status::InvalidArgs);
    }
    let first = endpoint::end::first_length(q, p.datagram, table);
    read_size(
        p.datagram,
        from,
        endpoint::ends::peer(p, handle == 1),
        first,
        b.count as usize,
    )
}
