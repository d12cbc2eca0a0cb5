// Cancelling the waits of an end that have a key, and the packets that such waits made. After `Port::cancel` of signal/port.rs.
ghost use Rattle.std.specs.Prelude.{◌≡◌, true, ◌+◌, ◌≤◌, leb};
ghost use Rattle.definition.specs.Status.{pick, ◌and◌};
ghost use Rattle.definition.specs.Port.{matches, matching, cancelled_of};

use crate::places::{FREE, end_number, is_sound};
use definition::{Place, Places};
use endpoint::choice::pick;

// The table that a cancel leaves, and how many of its places were freed.
#[derive(Clone, Copy)]
pub struct Remaining {
    pub places: Places,
    pub removed: u32,
}

// Whether a place is of that end and has that key. The end is tested by itself: with both tests as one, a cancel over 127 places takes a fifth longer.
pub fn is_match(p: Place, one: bool, key: u64) -> bool
    ensures { result ≡ matches one key p }
{
    if p.end != end_number(one) {
        return false;
    }
    p.key == key
}

// Frees each place that matches, if that is asked; each of the others goes behind those kept so far, so that their order stays. Of those kept, m are
// packets.
fn compacted(t: Places, one: bool, key: u64, asked: bool) -> Remaining
    requires { asked ≡ true → t.packets + t.waits ≤ 128 }
    ensures { result ≡ record { places = pick asked (cancelled_of one key t) t; removed = pick asked (matching one key t) 0 } }
{
    let packets = t.packets;
    let waits = t.waits;
    let mut out = t;
    let mut removed: u32 = 0;
    if asked {
        let used = packets + waits;
        let mut n: usize = 0;
        let mut m: usize = 0;
        for i in 0..used {
            let p = out.table[i];
            out.table[i] = FREE;
            m = pick(i <= packets, n, m);
            if !is_match(p, one, key) {
                out.table[n] = p;
                n += 1;
            }
        }
        m = pick(used <= packets, n, m);
        out.packets = m;
        out.waits = n - m;
        removed = (used - n) as u32;
    }
    Remaining {
        places: out,
        removed,
    }
}

// Removes the waits and the packets of that end with that key, if that is asked and the table is sound. Whether both hold is chosen, with no branch: behind
// one the compiler makes each way a copy of its own of what a caller does with the table, with a second table on the stack.
pub fn cancelled(t: Places, asked: bool, one: bool, key: u64) -> Remaining
    ensures { result ≡ record { places = pick (asked and leb (t.packets + t.waits) 128) (cancelled_of one key t) t; removed = pick (asked and leb (t.packets + t.waits) 128) (matching one key t) 0 } }
{
    let passes = pick(asked, is_sound(t.packets, t.waits), false);
    compacted(t, one, key, passes)
}
