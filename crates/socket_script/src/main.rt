// A script from standard input; its listing to standard output. Both go in large blocks.
#![tactic(auto)]

ghost use Rattle.std.specs.Prelude.{◌≤◌, ◌≡◌, length, take};
ghost use Rattle.std.specs.Io.{ReadsAtMost};
ghost use Rattle.definition_script.specs.Call.{written_at};
ghost use Rattle.definition_script.specs.Listing.{header, closing};
ghost use Rattle.script_call.specs.Lent.{SameLent, lent_rings};
ghost use Rattle.buffer.specs.blocks.Drain.{ReadIn, DrainMay, held, Drained};
ghost use Rattle.buffer.specs.blocks.BlocksRun.{RunMay, RunDone};

use buffer::buffer::Progress;
use script_call::lent::Lent;
use std::io;
use std::io::{ErrorKind, Read};

// Tells on standard error that a read failed, if it did. Where standard error takes nothing either, nobody is left to tell.
fn tell_failed_read(rt: &HostRuntime, got: &io::Result<usize>) {
    if got.is_err() {
        let _ = eprintln!(rt; "socket_script: standard input cannot be read");
    }
}

// Tells on standard error that a write failed, if it did.
fn tell_failed_write(rt: &HostRuntime, done: bool) {
    if !done {
        let _ = eprintln!(rt; "socket_script: standard output cannot be written");
    }
}

// One read from standard input. A read that a signal interrupts before a byte came has not failed, and is made again.
fn read_some(rt: &HostRuntime, buffer: &mut [u8]) -> io::Result<usize>
    ensures { ReadsAtMost result buffer.new }
{
    for _ in 0..u64::MAX {
        match rt.stdin().read(buffer) {
            Err(e) if e.kind() == ErrorKind::Interrupted => {}
            got => return got,
        }
    }
    rt.stdin().read(buffer)
}

// Reads behind the bytes that are in use, which stay as they were; 0 at the end of the input, and where a read fails, which ends the input.
fn read_in(rt: &HostRuntime, buffer: &mut [u8], used: usize) -> usize
    requires { used ≤ length buffer.old }
    ensures { ReadIn used result buffer.old buffer.new }
{
    let got = read_some(rt, &mut buffer[used..]);
    tell_failed_read(rt, &got);
    got.unwrap_or(0)
}

// Writes a text. The first write that fails is told and noted in `failed`; after it nothing is written and nothing is told.
// The flag alone is enough, since the error is told where it comes.
fn put(rt: &HostRuntime, text: &[u8], failed: &mut bool) {
    if *failed {
        return;
    }
    let done = rt.write_all(text).is_ok();
    tell_failed_write(rt, done);
    *failed = !done;
}

// Feeds the bytes in use until no move is left, and writes what comes out.
fn drain(
    rt: &HostRuntime,
    p: Progress,
    buffer: &mut [u8],
    lent: &mut Lent,
    out: &mut [u8],
    failed: &mut bool,
) -> Progress
    requires { DrainMay p buffer.old lent.old.memory.now out.old }
    ensures same { SameLent lent.old lent.new }
    ensures done { Drained (held p buffer.old lent.old.memory.now (lent_rings lent.old) out.old) (held result buffer.new lent.new.memory.now (lent_rings lent.new) out.new) }
{
    let mut q = p;
    // A step tells by what is left in use whether it was the last, so the test stands behind it: a `while` would have to be told before the first.
    loop {
        let used = q.used;
        q = buffer::buffer::advance(q, buffer, lent, out);
        put(rt, &out[..q.written], failed);
        if q.used == used {
            break;
        }
    }
    q
}

// The first line.
fn begin(rt: &HostRuntime, out: &mut [u8], failed: &mut bool)
    requires { 22 ≤ length out.old }
    ensures { out.new ≡ written_at 0 header out.old }
{
    let n = listing::script::header(out);
    put(rt, &out[..n], failed);
}

// The end of the input.
fn finish(rt: &HostRuntime, p: Progress, buffer: &[u8], out: &mut [u8], failed: &mut bool)
    requires { (p.used ≤ length buffer.now) × (26 ≤ length out.old) }
    ensures { out.new ≡ written_at 0 (closing p.offset p.state.ended (take p.used buffer.now)) out.old }
{
    let n = listing::script::finish(p.state, p.offset, &buffer[..p.used], out);
    put(rt, &out[..n], failed);
}

// The whole script, from the header to the end of the input.
fn run(rt: &HostRuntime, lent: &mut Lent, buffer: &mut [u8], out: &mut [u8], failed: &mut bool)
    requires { RunMay lent.old.memory.now (lent_rings lent.old) buffer.old out.old }
    ensures same { SameLent lent.old lent.new }
    ensures done { RunDone lent.old.memory.now (lent_rings lent.old) buffer.old out.old lent.new.memory.now (lent_rings lent.new) buffer.new out.new }
{
    let mut p = buffer::buffer::first();
    begin(rt, out, failed);
    while buffer::blocks::reads_on(p.state.ended, p.offset) {
        let got = read_in(rt, buffer, p.used);
        if got == 0 {
            break;
        }
        p.used += got;
        p = drain(rt, p, buffer, lent, out, failed);
    }
    finish(rt, p, buffer, out, failed);
}

// Each contract gives only the length, which lending the array needs.
fn space<const N: usize>() -> [u8; N]
    ensures { N ≡ length result }
{
    [0; N]
}

fn input_space() -> [u8; 131072]
    ensures { 131072 ≡ length result }
{
    space()
}

fn output_space() -> [u8; 262144]
    ensures { 262144 ≡ length result }
{
    space()
}

fn main(rt: HostRuntime) {
    let mut memory = [0u8; 4096];
    let mut ring_one = [0u8; 4096];
    let mut table_one = [0u32; 4096];
    let mut ring_two = [0u8; 4096];
    let mut table_two = [0u32; 4096];
    let mut lent = Lent {
        memory: &mut memory,
        ring_one: &mut ring_one,
        table_one: &mut table_one,
        ring_two: &mut ring_two,
        table_two: &mut table_two,
    };
    let mut buffer = input_space();
    let mut out = output_space();
    let mut failed = false;
    run(&rt, &mut lent, &mut buffer, &mut out, &mut failed);
}
