// Runs stored scripts and compares each listing with the stored one, which the original Rust gave. Of the first entry that does not agree it prints the
// number from 0 and the name, and the byte, or that another line might not have had room; then, where it is so, that an entry is cut and that the input
// fills the buffer; last how many agree. The stored scripts are this program's standard input. They were made in rust/differential, from the original, by
//     cargo build --release --offline && target/release/sample FILE
// For each script the input has its name, the script and the listing, each after a four-byte little-endian length.
#![tactic(auto)]

ghost use Rattle.std.specs.Prelude.{◌≤◌, ◌≡◌, length};
ghost use Rattle.replay.specs.Replay.{first_name, NameWithin, ReplayMay, Replays};

use report::tally::Tally;
use std::io::{ErrorKind, Read};

mod entry;

// Tells on standard error that a write failed, if it did. Where standard error takes nothing either, nobody is left to tell.
fn tell_failed_write(rt: &HostRuntime, done: bool) {
    if !done {
        let _ = eprintln!(rt; "replay: standard output cannot be written");
    }
}

// Reads standard input until the buffer is full, the input ends or a read fails, and says how many bytes stand at the front of the buffer. A read that a
// signal interrupts before a byte came has not failed, and is made again. `read_exact` would not say how many bytes came before the input ended.
fn read_full(rt: &HostRuntime, buffer: &mut [u8]) -> usize
    ensures { result ≤ length buffer.new }
{
    let mut used = 0;
    for _ in 0..u64::MAX {
        if used == buffer.len() {
            break;
        }
        match rt.stdin().read(&mut buffer[used..]) {
            Ok(0) => break,
            Ok(n) => used += n,
            Err(e) => {
                if e.kind() != ErrorKind::Interrupted {
                    break;
                }
            }
        }
    }
    used
}

// The name of the first entry that does not agree; empty where all agree.
fn first_name(s: &[u8], t: Tally) -> &[u8]
    requires { NameWithin s.now t }
    ensures { result.now ≡ first_name s.now t }
{
    match t.first {
        None => &[],
        Some(m) => &s[m.from..m.to],
    }
}

// Runs the entries in the bytes in use, and writes the report of what was found, which is put into the same buffer after the runs. The whole buffer goes in
// beside how much of it is in use, since `Replays` tells whether the input fills it.
fn replay(rt: &HostRuntime, input: &[u8], used: usize, out: &mut [u8])
    requires { ReplayMay input.now used out.old }
    ensures { Replays input.now used out.old out.new }
{
    let s = &input[..used];
    let r = entry::replay_all(s, out);
    let t = r.tally;
    let n = report::report::report(out, t, first_name(s, t), r.at < used, used == input.len());
    tell_failed_write(rt, rt.write_all(&out[..n]).is_ok());
}

// Each contract gives only the length, which lending the array needs.
fn buffer<const N: usize>() -> [u8; N]
    ensures { N ≡ length result }
{
    [0; N]
}

fn input_buffer() -> [u8; 1048576]
    ensures { 1048576 ≡ length result }
{
    buffer()
}

// It has 190 bytes more than the input's buffer, so that a report has room whatever name from the input is in it.
fn output_buffer() -> [u8; 1048766]
    ensures { 1048766 ≡ length result }
{
    buffer()
}

fn main(rt: HostRuntime) {
    let mut input_array = input_buffer();
    let mut out_array = output_buffer();
    let input: &mut [u8] = &mut input_array;
    let out: &mut [u8] = &mut out_array;
    let used = read_full(&rt, input);
    replay(&rt, input, used, out);
}
