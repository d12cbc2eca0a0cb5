// Calls over user memory: one slice that the caller lends, at a 64-bit base. After zircon-syscall's socket.rs.
#![tactic(auto)]

ghost use Rattle.definition.specs.Disposition.{UserDisposes};
ghost use Rattle.definition.specs.Shutdown.{UserShuts};
ghost use Rattle.definition.specs.Write.{UserWrites};
ghost use Rattle.definition.specs.Read.{BytesRead, UserReads};

use definition::{Pair, Step};
use socket::{ends_of, settle};
use user_answers::lookup::Buffer;

mod deferred;

pub use deferred::{dispose_ends, shutdown_ends};

// Writes the bytes of user memory to the peer's queue, and lands the count of those taken. The ring and the table are the peer's.
pub fn write(
    p: Pair,
    handle: u32,
    options: u32,
    b: Buffer,
    memory: &mut [u8],
    ring: &mut [u8],
    table: &mut [u32],
) -> Step
    ensures { UserWrites p handle b.base options b.address b.count b.count_at memory.old memory.new ring.old ring.new table.old table.new result }
{
    let e = ends_of(p);
    let t = transfer::write::user_memory::write_transfer(
        e, handle, options, b, memory, ring, table,
    );
    settle(p, transfer::write::write_outcome(e, handle, t))
}

// Reads the front of the own queue into user memory, all but the count. The ring and the table are the reader's.
pub fn read_bytes(
    p: Pair,
    handle: u32,
    options: u32,
    b: Buffer,
    memory: &mut [u8],
    ring: &[u8],
    table: &[u32],
) -> Step
    ensures { BytesRead p handle b.base options b.address b.count b.count_at ring.now table.now memory.old memory.new result }
{
    let e = ends_of(p);
    let t = transfer::read::user_memory::read_bytes_transfer(
        e, handle, options, b, memory, ring, table,
    );
    settle(p, transfer::read::read_outcome(e, handle, t))
}

// Reads the front of the own queue into user memory, then lands the count over the bytes.
pub fn read(
    p: Pair,
    handle: u32,
    options: u32,
    b: Buffer,
    memory: &mut [u8],
    ring: &[u8],
    table: &[u32],
) -> Step
    ensures { UserReads p handle b.base options b.address b.count b.count_at ring.now table.now memory.old memory.new result }
{
    let e = ends_of(p);
    let t = transfer::read::user_memory::read_transfer(e, handle, options, b, memory, ring, table);
    settle(p, transfer::read::read_outcome(e, handle, t))
}

// Disables or enables the writing of an end and of its peer, by numbers.
pub fn set_disposition(p: Pair, handle: u32, disposition: u32, peer_disposition: u32) -> Step
    ensures { UserDisposes p handle disposition peer_disposition result }
{
    let r = dispose_ends(ends_of(p), handle, disposition, peer_disposition);
    settle(p, r)
}

// Prevents reading or writing by the end of a handle, by bits; an open peer gets the negated flags.
pub fn shutdown(p: Pair, handle: u32, options: u32) -> Step
    ensures { UserShuts p handle options result }
{
    let r = shutdown_ends(ends_of(p), handle, options);
    settle(p, r)
}
