// What the program `replay` prints of its tally, put as text into a lent slice.
ghost use Rattle.std.specs.Prelude.{◌+◌, length};
ghost use Rattle.text.specs.Put.{Written};
ghost use Rattle.text.specs.Puts.{Appends, Puts};
ghost use Rattle.report.specs.report.Report.{REPORT, numbered_text, entry_text, first_text, cut_text, full_text, counts_text, report_text};

use crate::tally::{Miss, MissedEntry, Tally};
use text::Writer;

// A text, a number in decimal, and another text.
fn numbered(to: &mut Writer, before: &[u8], n: u64, after: &[u8])
    ensures { Appends (length before.now + (20 + length after.now)) (numbered_text before.now n after.now) to.old to.new }
{
    to.copy(before);
    to.decimal(n);
    to.copy(after);
}

// Which entry it is: its number from 0, and its name, whose bytes are put as they are.
fn entry(to: &mut Writer, number: u64, name: &[u8])
    ensures { Appends (length name.now + 31) (entry_text number name.now) to.old to.new }
{
    numbered(to, b"listing ", number, b" (");
    to.copy(name);
    to.byte(b')');
}

// The first entry that does not agree, if there is one.
fn first(to: &mut Writer, missed: Option<MissedEntry>, name: &[u8])
    ensures { Appends (length name.now + 69) (first_text missed name.now) to.old to.new }
{
    if let Some(m) = missed {
        entry(to, m.number, name);
        match m.miss {
            Miss::DiffersAt(i) => numbered(to, b" differs at byte ", i as u64, b"\n"),
            Miss::NoRoom => to.copy(b" may have no room\n"),
        }
    }
}

// The entry that the end of the input cuts, if there is one.
fn cut_entry(to: &mut Writer, cut: bool, number: u64)
    ensures { Appends 34 (cut_text cut number) to.old to.new }
{
    if cut {
        numbered(to, b"entry ", number, b" is cut\n");
    }
}

// The input may go on behind a buffer that it fills.
fn full_buffer(to: &mut Writer, full: bool)
    ensures { Appends 27 (full_text full) to.old to.new }
{
    if full {
        to.copy(b"the input fills the buffer\n");
    }
}

fn counts(to: &mut Writer, agree: u64, total: u64)
    ensures { Appends 60 (counts_text agree total) to.old to.new }
{
    to.decimal(agree);
    numbered(to, b" of ", total, b" listings agree\n");
}

// The whole report. It asks for the room of the name and of 190 bytes, the most that the rest takes; with less it puts nothing.
fn whole(to: &mut Writer, t: Tally, name: &[u8], cut: bool, full: bool)
    ensures { Puts (length name.now + REPORT) (report_text t name.now cut full) to.old to.new }
{
    if to.has_room(name.len() + 190) {
        first(to, t.first, name);
        cut_entry(to, cut, t.total);
        full_buffer(to, full);
        counts(to, t.agree, t.total);
    }
}

// The report at the front of a slice; the answer is its length, which is 0 where it has no room.
pub fn report(out: &mut [u8], t: Tally, name: &[u8], cut: bool, full: bool) -> usize
    ensures { Written (length name.now + REPORT) 0 (report_text t name.now cut full) result out.old out.new }
{
    let mut to = Writer { out, at: 0 };
    whole(&mut to, t, name, cut, full);
    to.at
}
