// The stored entries, each a name, a script and its listing: where they lie in the input, whether they agree, how many do, and where the name of
// the first lies that does not.
ghost use Rattle.std.specs.Prelude.{◌+◌, ◌≤◌, ◌<◌, ◌≡◌, length};
ghost use Rattle.replay.specs.Entry.{FieldAt, EntryAt, ScriptIn, Compares, EntryRun};
ghost use Rattle.replay.specs.Replay.{AgreeTo};

use report::tally::{Comparison, Miss, Tally};

// Where an entry's name ends, its script, and its listing.
#[derive(Clone, Copy)]
struct Entry {
    name_end: usize,
    script_end: usize,
    end: usize,
}

// The tally, and where in the input the entries end that were run.
#[derive(Clone, Copy)]
pub struct Replayed {
    pub tally: Tally,
    pub at: usize,
}

// Where a field ends, which is its length and its bytes; or the input cuts it.
fn field_at(s: &[u8], at: usize) -> Option<usize>
    requires { at ≤ length s.now }
    ensures { FieldAt s.now at result }
{
    if s.len() - at < 4 {
        return None;
    }
    let length = u32::from_le_bytes([s[at], s[at + 1], s[at + 2], s[at + 3]]);
    let end = at + 4 + length as usize;
    (end <= s.len()).then_some(end)
}

// An entry is three fields, one behind the other; or the input does not hold all three.
fn entry_at(s: &[u8], at: usize) -> Option<Entry>
    requires { at ≤ length s.now }
    ensures { EntryAt s.now at result }
{
    let name_end = field_at(s, at)?;
    let script_end = field_at(s, name_end)?;
    let end = field_at(s, script_end)?;
    Some(Entry {
        name_end,
        script_end,
        end,
    })
}

// The first place where just one of two slices ends, or both have a byte and the bytes differ.
fn first_difference(a: &[u8], b: &[u8]) -> Option<usize>
    ensures { Compares a.now b.now result }
{
    if a == b {
        return None;
    }
    a.iter()
        .zip(b)
        .position(|(x, y)| x != y)
        .or(Some(a.len().min(b.len())))
}

// Runs an entry's script, which stands behind the name, and compares. A listing has no room where another line might not have fit behind it.
fn replay_entry(s: &[u8], entry: Entry, out: &mut [u8]) -> Comparison
    requires { ScriptIn s.now entry.name_end entry.script_end entry.end }
    ensures { EntryRun s.now entry.name_end entry.script_end entry.end out.old out.new result }
{
    let from = entry.name_end + 4;
    let n = listing::listing::run_script(&s[from..entry.script_end], out);
    if out.len() - n < 8254 {
        return Err(Miss::NoRoom);
    }
    let listing = entry.script_end + 4;
    match first_difference(&out[..n], &s[listing..entry.end]) {
        None => Ok(()),
        Some(i) => Err(Miss::DiffersAt(i)),
    }
}

// Runs the entries from the start of the input, until its end or an entry that is cut.
pub fn replay_all(s: &[u8], out: &mut [u8]) -> Replayed
    ensures { AgreeTo s.now out.old out.new result }
{
    let mut tally = Tally::default();
    let mut at = 0;
    while let Some(entry) = entry_at(s, at) {
        let o = replay_entry(s, entry, out);
        tally = tally.counted(at + 4, entry.name_end, o);
        at = entry.end;
    }
    Replayed { tally, at }
}
