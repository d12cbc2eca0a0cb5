// One line of the listing.
ghost use Rattle.std.specs.Prelude.{◌+◌, ◌≤◌, length};
ghost use Rattle.text.specs.Puts.{Appends};
ghost use Rattle.definition_script.specs.Line.{number_text, hex_text, signal_text, info_text, packet_text, bytes_text, added_text, front_text, signals_text};
ghost use Rattle.line.specs.line.LineWritten.{LineWritten};

use definition::{Answer, PortPacket, Record, SignalWord, SocketInfo};
use text::Writer;

fn number(to: &mut Writer, n: u64)
    ensures { Appends 21 (number_text n) to.old to.new }
{
    to.byte(b' ');
    to.decimal(n);
}

fn hex(to: &mut Writer, k: usize, n: u64)
    ensures { Appends (1 + k) (hex_text k n) to.old to.new }
{
    to.byte(b' ');
    to.hex(k, n);
}

fn signal(to: &mut Writer, w: SignalWord)
    ensures { Appends 8 (signal_text w) to.old to.new }
{
    match w {
        None => to.byte(b'-'),
        Some(n) => to.hex(8, n as u64),
    }
}

fn info(to: &mut Writer, i: SocketInfo)
    ensures { Appends 126 (info_text i) to.old to.new }
{
    number(to, i.options as u64);
    number(to, i.rx_buf_max);
    number(to, i.rx_buf_size);
    number(to, i.rx_buf_available);
    number(to, i.tx_buf_max);
    number(to, i.tx_buf_size);
}

fn packet(to: &mut Writer, p: PortPacket)
    ensures { Appends 35 (packet_text p) to.old to.new }
{
    hex(to, 16, p.key);
    hex(to, 8, p.trigger as u64);
    hex(to, 8, p.observed as u64);
}

fn bytes(to: &mut Writer, delivered: &[u8])
    requires { length delivered.now ≤ 4096 }
    ensures { Appends 8193 (bytes_text delivered.now) to.old to.new }
{
    if !delivered.is_empty() {
        to.byte(b' ');
        to.hex_bytes(delivered);
    }
}

// What a call adds to its line.
fn added(to: &mut Writer, a: Answer, delivered: &[u8])
    requires { length delivered.now ≤ 4096 }
    ensures { Appends 8193 (added_text a delivered.now) to.old to.new }
{
    match a {
        Ok(Record::Count(_)) => bytes(to, delivered),
        Ok(Record::Info(i)) => info(to, i),
        Ok(Record::Packet(p)) => packet(to, p),
        Ok(Record::Empty) => {}
        Ok(Record::Limits(_)) => {}
        Err(_) => {}
    }
}

fn front(to: &mut Writer, n: u64, a: Answer)
    ensures { Appends 43 (front_text n a) to.old to.new }
{
    to.decimal(n);
    to.byte(b' ');
    to.word(a);
    to.byte(b' ');
}

fn signals(to: &mut Writer, one: SignalWord, two: SignalWord)
    ensures { Appends 17 (signals_text one two) to.old to.new }
{
    signal(to, one);
    to.byte(b' ');
    signal(to, two);
}

// A line: the record's number, the answer's word, both signal words, and what the call adds. No call of a script delivers more than 4096 bytes;
// with more, nothing is put.
pub fn line(to: &mut Writer, n: u64, a: Answer, one: SignalWord, two: SignalWord, delivered: &[u8])
    ensures { LineWritten n a one two delivered.now to.old to.new }
{
    if delivered.len() <= 4096 && to.has_room(8254) {
        front(to, n, a);
        signals(to, one, two);
        added(to, a, delivered);
        to.byte(b'\n');
    }
}
