// The calls that a kernel links, over a pair that it keeps: each takes the pair behind a reference, leaves the next one there and
// returns the answer's word, or the signal word of an end. A call that changes the ends makes their outcome and has it stored, in two lines that a function
// over a closure would not make fewer.
#![tactic(auto, unfolding(
// the numbers of a record, in an array
definition_runs::specs::Exported::array_of, definition_runs::specs::Exported::threshold_numbers, definition_runs::specs::Exported::info_numbers,
// of a packet
definition_runs::specs::Exported::packet_numbers))]

ghost use Rattle.std.specs.Prelude.{◌≡◌};
ghost use Rattle.definition.specs.Create.{Creates};
ghost use Rattle.definition.specs.Write.{Writes};
ghost use Rattle.definition.specs.Read.{Reads};
ghost use Rattle.definition.specs.Disposition.{PlainDisposes};
ghost use Rattle.definition.specs.Shutdown.{Shuts};
ghost use Rattle.definition.specs.Threshold.{SetsReadThreshold, SetsWriteThreshold};
ghost use Rattle.definition.specs.Port.{Waits, Cancels};
ghost use Rattle.definition.specs.Close.{Closes};
ghost use Rattle.definition_runs.specs.Exported.{signal_number, Answered};

use definition::Pair;

pub mod memory;
pub mod records;
pub mod values;

// A new pair over the rings and tables of its two ends, of which it looks at the lengths. Where the call is refused, the record stays as it is.
pub fn murgwethan_create(
    p: &mut Pair,
    kind: u32,
    capacity: u32,
    rights_one: u32,
    rights_two: u32,
    ring_one: &[u8],
    table_one: &[u32],
    ring_two: &[u8],
    table_two: &[u32],
) -> i64
    ensures { Answered (Creates p.old kind capacity rights_one rights_two ring_one.now table_one.now ring_two.now table_two.now) p.new result }
{
    let a = crate::values::create_answer(
        kind, capacity, rights_one, rights_two, ring_one, table_one, ring_two, table_two,
    );
    kept::places::create(p, a, kind, capacity, rights_one, rights_two)
}

// Writes to the peer's queue. The ring and the table are the peer's.
pub fn murgwethan_write(
    p: &mut Pair,
    handle: u32,
    ring: &mut [u8],
    table: &mut [u32],
    bytes: &[u8],
) -> i64
    ensures { Answered (Writes p.old handle bytes.now ring.old ring.new table.old table.new) p.new result }
{
    let t = transfer::write::write_transfer(socket::ends_of(*p), handle, ring, table, bytes);
    kept::transfers::wrote(p, handle, t)
}

// Reads the front of the own queue into the buffer. The ring and the table are the reader's. A peek leaves the bytes in the queue.
pub fn murgwethan_read(
    p: &mut Pair,
    handle: u32,
    peek: bool,
    ring: &[u8],
    table: &[u32],
    buffer: &mut [u8],
) -> i64
    ensures { Answered (Reads p.old handle peek ring.now table.now buffer.old buffer.new) p.new result }
{
    let t = transfer::read::read_transfer(socket::ends_of(*p), handle, peek, ring, table, buffer);
    kept::transfers::read(p, handle, t)
}

// Disables or enables the writing of an end and of its peer: 0 leaves it as it is, 1 disables it, 2 enables it, a number above 2 is refused. No right is
// asked.
pub fn murgwethan_set_disposition(
    p: &mut Pair,
    handle: u32,
    disposition: u32,
    peer_disposition: u32,
) -> i64
    ensures { Answered (PlainDisposes p.old handle disposition peer_disposition) p.new result }
{
    let r = crate::values::dispose_ends(socket::ends_of(*p), handle, disposition, peer_disposition);
    kept::pair::outcome(p, r)
}

// Prevents reading or writing by the end of a handle; a peer that is open is shut by the opposite of each flag.
pub fn murgwethan_shutdown(p: &mut Pair, handle: u32, read: bool, write: bool) -> i64
    ensures { Answered (Shuts p.old handle read write) p.new result }
{
    let r = control::ends::shutdown_ends(socket::ends_of(*p), handle, read, write);
    kept::pair::outcome(p, r)
}

// Sets the number of bytes from which on an end's word shows that enough bytes are queued for a read; 0 turns it off.
pub fn murgwethan_set_read_threshold(p: &mut Pair, handle: u32, threshold: u64) -> i64
    ensures { Answered (SetsReadThreshold p.old handle threshold) p.new result }
{
    let r = control::threshold::read_threshold_ends(socket::ends_of(*p), handle, threshold);
    kept::pair::outcome(p, r)
}

// Sets the number of bytes from which on an end's word shows that there is enough room for a write; 0 turns it off.
pub fn murgwethan_set_write_threshold(p: &mut Pair, handle: u32, threshold: u64) -> i64
    ensures { Answered (SetsWriteThreshold p.old handle threshold) p.new result }
{
    let r = control::threshold::write_threshold_ends(socket::ends_of(*p), handle, threshold);
    kept::pair::outcome(p, r)
}

// Registers a wait of an end. It may fire now, by the word as it is; with edge 1 only a later change fires it.
pub fn murgwethan_wait(p: &mut Pair, handle: u32, key: u64, mask: u32, edge: u8) -> i64
    ensures { Answered (Waits p.old handle key mask edge) p.new result }
{
    let a = answers::control_calls::wait_answer(socket::ends_of(*p), handle, edge);
    kept::places::wait(p, a, handle, key, mask, edge)
}

// Removes the waits of an end that have this key, and the packets that such waits made, and returns how many these were. Where one place alone matches
// and at most 8 are used, it is taken out where the table stands, and the word is 1; every other cancel makes the next pair by value.
pub fn murgwethan_cancel(p: &mut Pair, handle: u32, key: u64) -> i64
    ensures { Answered (Cancels p.old handle key) p.new result }
{
    if let Some(k) = socket::only_match(*p, handle, key) {
        *p = socket::without_place(*p, k);
        1
    } else {
        let r = socket::cancelled(*p, handle, key);
        *p = r.pair;
        endpoint::answer::word(r.answer)
    }
}

// Closes the end of a handle: its queue and its waits vanish, packets stay, and an open peer is told by its word.
pub fn murgwethan_close(p: &mut Pair, handle: u32) -> i64
    ensures { Answered (Closes p.old handle) p.new result }
{
    let r = control::ends::close_ends(socket::ends_of(*p), handle);
    kept::pair::close(p, handle, r)
}

// The signal word of an end, after the tests of the record and of the handle. The pair stays as it is.
pub fn murgwethan_signal(p: &mut Pair, handle: u32) -> i64
    ensures { (result ≡ signal_number p.old handle) × (p.new ≡ p.old) }
{
    crate::values::signal(*p, handle)
}
