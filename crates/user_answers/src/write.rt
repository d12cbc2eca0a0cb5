// The answer of a write over user memory: its tests in their order, over both ends of a pair. After zircon-syscall's socket.rs.
ghost use Rattle.std.specs.Prelude.{◌≡◌};
ghost use Rattle.definition.specs.Pair.{is_one, peer};
ghost use Rattle.definition.specs.Tests.{lent_of};
ghost use Rattle.definition.specs.Write.{write_ranges, user_write_answer};

use crate::lookup::{Buffer, RIGHT_WRITE, lookup};
use answers::tests::{slices_test, sound_test};
use answers::write_size::write_size;
use definition::{Answer, Ends, Status};

// The range of the bytes that a write of this size takes, then the count's. It is inlined, so that the size's answer
// is not stored to be read again.
#[inline(always)]
fn write_ranges(b: Buffer, size: usize, a: Answer) -> Answer
    ensures { result ≡ write_ranges b.base size b.address b.count_at a }
{
    a?;
    let m = endpoint::answer::count_of(a) as u64;
    if !crate::memory::fits(b.base, size, b.address, m) {
        return Err(Status::InvalidArgs);
    }
    if !crate::memory::count_fits(b.base, size, b.count_at) {
        return Err(Status::InvalidArgs);
    }
    a
}

// The tests of a write over user memory of `size` bytes. Of the bytes, only the range of those that the write would take is tested.
pub fn write_answer(
    p: Ends,
    handle: u32,
    options: u32,
    b: Buffer,
    size: usize,
    ring: &[u8],
    table: &[u32],
) -> Answer
    ensures { result ≡ user_write_answer p (lent_of p.datagram (peer (is_one handle) p).queue ring.now table.now) handle b.base size options b.address b.count b.count_at }
{
    sound_test(p)?;
    let to = endpoint::ends::peer(p, handle == 1);
    let q = to.queue;
    slices_test(p.datagram, p.capacity, handle, q, ring, table)?;
    if options != 0 || crate::memory::is_null(b.address, b.count) {
        return Err(Status::InvalidArgs);
    }
    lookup(p, handle, RIGHT_WRITE)?;
    let from = endpoint::ends::own(p, handle == 1);
    let a = write_size(p.datagram, p.capacity, from, to, b.count as usize);
    write_ranges(b, size, a)
}
