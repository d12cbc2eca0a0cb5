// The static library that a kernel links: each call of the crate host, exported under its name and by the same contract. C and Rust pass a slice as its
// pointer and its length (rust/host/include/murgwethan.h).
#![tactic(auto)]

ghost use Rattle.std.specs.Prelude.{◌≡◌};
ghost use Rattle.definition.specs.Create.{Creates};
ghost use Rattle.definition.specs.Write.{Writes, UserWrites};
ghost use Rattle.definition.specs.Read.{Reads, UserReads};
ghost use Rattle.definition.specs.Disposition.{PlainDisposes, UserDisposes};
ghost use Rattle.definition.specs.Shutdown.{Shuts, UserShuts};
ghost use Rattle.definition.specs.Threshold.{AsksThresholds, SetsReadThreshold, SetsWriteThreshold};
ghost use Rattle.definition.specs.Info.{AsksInfo};
ghost use Rattle.definition.specs.Port.{Cancels, Takes, Waits};
ghost use Rattle.definition.specs.Close.{Closes};
ghost use Rattle.definition_runs.specs.Exported.{Answered, Recorded, info_numbers, packet_numbers, signal_number, threshold_numbers};

use definition::Pair;

// A new pair over the rings and tables of its two ends, of which it looks at the lengths. Where the call is refused, the record stays as it is.
#[unsafe(no_mangle)]
pub extern "C" fn murgwethan_create(
    p: &mut Pair,
    kind: u32,
    capacity: u32,
    rights_one: u32,
    rights_two: u32,
    ring_one: &[u8],
    table_one: &[u32],
    ring_two: &[u8],
    table_two: &[u32],
) -> i64
    ensures { Answered (Creates p.old kind capacity rights_one rights_two ring_one.now table_one.now ring_two.now table_two.now) p.new result }
{
    host::murgwethan_create(
        p, kind, capacity, rights_one, rights_two, ring_one, table_one, ring_two, table_two,
    )
}

// Writes to the peer's queue. The ring and the table are the peer's.
#[unsafe(no_mangle)]
pub extern "C" fn murgwethan_write(
    p: &mut Pair,
    handle: u32,
    ring: &mut [u8],
    table: &mut [u32],
    bytes: &[u8],
) -> i64
    ensures { Answered (Writes p.old handle bytes.now ring.old ring.new table.old table.new) p.new result }
{
    host::murgwethan_write(p, handle, ring, table, bytes)
}

// Reads the front of the own queue into the buffer. The ring and the table are the reader's. A peek leaves the bytes in the queue.
#[unsafe(no_mangle)]
pub extern "C" fn murgwethan_read(
    p: &mut Pair,
    handle: u32,
    peek: bool,
    ring: &[u8],
    table: &[u32],
    buffer: &mut [u8],
) -> i64
    ensures { Answered (Reads p.old handle peek ring.now table.now buffer.old buffer.new) p.new result }
{
    host::murgwethan_read(p, handle, peek, ring, table, buffer)
}

// Disables or enables the writing of an end and of its peer: 0 leaves it as it is, 1 disables it, 2 enables it, a number above 2 is refused. No right is
// asked.
#[unsafe(no_mangle)]
pub extern "C" fn murgwethan_set_disposition(
    p: &mut Pair,
    handle: u32,
    disposition: u32,
    peer_disposition: u32,
) -> i64
    ensures { Answered (PlainDisposes p.old handle disposition peer_disposition) p.new result }
{
    host::murgwethan_set_disposition(p, handle, disposition, peer_disposition)
}

// Prevents reading or writing by the end of a handle; a peer that is open is shut by the opposite of each flag.
#[unsafe(no_mangle)]
pub extern "C" fn murgwethan_shutdown(p: &mut Pair, handle: u32, read: bool, write: bool) -> i64
    ensures { Answered (Shuts p.old handle read write) p.new result }
{
    host::murgwethan_shutdown(p, handle, read, write)
}

// Sets the number of bytes from which on an end's word shows that enough bytes are queued for a read; 0 turns it off.
#[unsafe(no_mangle)]
pub extern "C" fn murgwethan_set_read_threshold(p: &mut Pair, handle: u32, threshold: u64) -> i64
    ensures { Answered (SetsReadThreshold p.old handle threshold) p.new result }
{
    host::murgwethan_set_read_threshold(p, handle, threshold)
}

// Sets the number of bytes from which on an end's word shows that there is enough room for a write; 0 turns it off.
#[unsafe(no_mangle)]
pub extern "C" fn murgwethan_set_write_threshold(p: &mut Pair, handle: u32, threshold: u64) -> i64
    ensures { Answered (SetsWriteThreshold p.old handle threshold) p.new result }
{
    host::murgwethan_set_write_threshold(p, handle, threshold)
}

// Registers a wait of an end. It may fire now, by the word as it is; with edge 1 only a later change fires it.
#[unsafe(no_mangle)]
pub extern "C" fn murgwethan_wait(p: &mut Pair, handle: u32, key: u64, mask: u32, edge: u8) -> i64
    ensures { Answered (Waits p.old handle key mask edge) p.new result }
{
    host::murgwethan_wait(p, handle, key, mask, edge)
}

// Removes the waits of an end that have this key, and the packets that such waits made, and returns how many these were. Where one place alone matches
// and at most 8 are used, it is taken out where the table stands, and the word is 1; every other cancel makes the next pair by value.
#[unsafe(no_mangle)]
pub extern "C" fn murgwethan_cancel(p: &mut Pair, handle: u32, key: u64) -> i64
    ensures { Answered (Cancels p.old handle key) p.new result }
{
    host::murgwethan_cancel(p, handle, key)
}

// Closes the end of a handle: its queue and its waits vanish, packets stay, and an open peer is told by its word.
#[unsafe(no_mangle)]
pub extern "C" fn murgwethan_close(p: &mut Pair, handle: u32) -> i64
    ensures { Answered (Closes p.old handle) p.new result }
{
    host::murgwethan_close(p, handle)
}

// The signal word of an end, after the tests of the record and of the handle. The pair stays as it is.
#[unsafe(no_mangle)]
pub extern "C" fn murgwethan_signal(p: &mut Pair, handle: u32) -> i64
    ensures { (result ≡ signal_number p.old handle) × (p.new ≡ p.old) }
{
    host::murgwethan_signal(p, handle)
}

// Writes the bytes of user memory to the peer's queue, and lands the count of those taken. The ring and the table are the peer's.
#[unsafe(no_mangle)]
pub extern "C" fn murgwethan_user_write(
    p: &mut Pair,
    handle: u32,
    options: u32,
    base: u64,
    memory: &mut [u8],
    address: u64,
    count: u64,
    count_at: u64,
    ring: &mut [u8],
    table: &mut [u32],
) -> i64
    ensures { Answered (UserWrites p.old handle base options address count count_at memory.old memory.new ring.old ring.new table.old table.new) p.new result }
{
    host::memory::murgwethan_user_write(
        p, handle, options, base, memory, address, count, count_at, ring, table,
    )
}

// Reads the front of the own queue into user memory, then lands the count over the bytes. Option 8 is a peek.
#[unsafe(no_mangle)]
pub extern "C" fn murgwethan_user_read(
    p: &mut Pair,
    handle: u32,
    options: u32,
    base: u64,
    memory: &mut [u8],
    address: u64,
    count: u64,
    count_at: u64,
    ring: &[u8],
    table: &[u32],
) -> i64
    ensures { Answered (UserReads p.old handle base options address count count_at ring.now table.now memory.old memory.new) p.new result }
{
    host::memory::murgwethan_user_read(
        p, handle, options, base, memory, address, count, count_at, ring, table,
    )
}

// Disables or enables the writing of an end and of its peer, by numbers from 0 to 2.
#[unsafe(no_mangle)]
pub extern "C" fn murgwethan_user_set_disposition(
    p: &mut Pair,
    handle: u32,
    disposition: u32,
    peer_disposition: u32,
) -> i64
    ensures { Answered (UserDisposes p.old handle disposition peer_disposition) p.new result }
{
    host::memory::murgwethan_user_set_disposition(p, handle, disposition, peer_disposition)
}

// Prevents reading or writing by the end of a handle: bit 0x1 of the options is write, 0x2 read, others are ignored. A peer that is open is shut by
// the opposite of each.
#[unsafe(no_mangle)]
pub extern "C" fn murgwethan_user_shutdown(p: &mut Pair, handle: u32, options: u32) -> i64
    ensures { Answered (UserShuts p.old handle options) p.new result }
{
    host::memory::murgwethan_user_shutdown(p, handle, options)
}

// The read and the write threshold of an end.
#[unsafe(no_mangle)]
pub extern "C" fn murgwethan_thresholds(p: &mut Pair, handle: u32, out: &mut [u64; 2]) -> i64
    ensures { Answered (Recorded threshold_numbers (AsksThresholds p.old handle) out.old out.new) p.new result }
{
    host::records::murgwethan_thresholds(p, handle, out)
}

// Options, capacity, queued, available, the peer's capacity and queued. The table is the own one; only datagram pairs look at it.
#[unsafe(no_mangle)]
pub extern "C" fn murgwethan_info(
    p: &mut Pair,
    handle: u32,
    table: &[u32],
    out: &mut [u64; 6],
) -> i64
    ensures { Answered (Recorded info_numbers (AsksInfo p.old handle table.now) out.old out.new) p.new result }
{
    host::records::murgwethan_info(p, handle, table, out)
}

// Takes the oldest packet: its key, trigger, observed word, count and timestamp.
#[unsafe(no_mangle)]
pub extern "C" fn murgwethan_take(p: &mut Pair, out: &mut [u64; 5]) -> i64
    ensures { Answered (Recorded packet_numbers (Takes p.old) out.old out.new) p.new result }
{
    host::records::murgwethan_take(p, out)
}
