// Tables of which few places are used: a wait put behind them, and the only place that a cancel matches taken out. The compiler unrolls a loop of 8 turns,
// and a place is chosen field by field, so that each place is read and changed where it stands; for an index that is computed it copies the table. Inside
// this module 8 stands for none of the first 8 places, and 0 for a count of used places that is too large: with an `Option` for either, a wait and its
// cancel take a tenth longer.
ghost use Rattle.std.specs.Prelude.{◌≡◌, true, false, ◌+◌, ◌-◌, ◌≤◌, leb, ltb, set};
ghost use Rattle.definition.specs.Status.{pick, ◌and◌};
ghost use Rattle.definition.specs.Port.{free, wait_of, appended_of};
ghost use Rattle.port.specs.few.Few.{at_most_seven_used, only_match, removed_at, is_among_eight, without_place};

use crate::cancel::is_match;
use crate::places::{FREE, end_number, uses_at_most};
use definition::{Place, Places};
use endpoint::choice::pick;

// One of two places. Chosen whole, the loops take a tenth more instructions.
fn place_if(test: bool, yes: Place, no: Place) -> Place
    ensures { result ≡ pick test yes no }
{
    Place {
        key: pick(test, yes.key, no.key),
        mask: pick(test, yes.mask, no.mask),
        observed: pick(test, yes.observed, no.observed),
        end: pick(test, yes.end, no.end),
    }
}

// How many places are used, if no more than so many are; else 0.
fn used_within(packets: usize, waits: usize, most: usize) -> usize
    ensures { result ≡ pick (leb (packets + waits) most) (packets + waits) 0 }
{
    if uses_at_most(packets, waits, most) {
        packets + waits
    } else {
        0
    }
}

// The table with this place at `at`, if that is one of the first 8; else as it was.
fn with_place(t: Places, at: usize, p: Place) -> Places
    ensures { result ≡ record { packets = t.packets; waits = t.waits; table = pick (ltb at 8) (set t.table at p) t.table } }
{
    let mut out = t;
    for i in 0..8 {
        out.table[i] = place_if(i == at, p, t.table[i]);
    }
    out
}

// Puts a wait behind the waits, if that is asked and at most 7 places are used; else the table is as it was.
pub fn appended(t: Places, asked: bool, one: bool, key: u64, mask: u32) -> Places
    ensures { result ≡ pick (asked and at_most_seven_used t) (appended_of (wait_of one key mask) t) t }
{
    let packets = t.packets;
    let waits = t.waits;
    let p = Place {
        key,
        mask,
        observed: 0,
        end: end_number(one),
    };
    let room = asked && uses_at_most(packets, waits, 7);
    let mut out = with_place(t, pick(room, used_within(packets, waits, 7), 8), p);
    out.waits = waits + pick(room, 1, 0);
    out
}

// Where the only place that matches stands; `None` if that is not asked, if more than 8 places are used, or if none or several match. The places are
// looked at from the last to the first.
pub fn only_match(t: Places, asked: bool, one: bool, key: u64) -> Option<usize>
    ensures { let k = only_match asked one key t in result ≡ pick (ltb k 8) (Some k) None }
{
    let used = used_within(t.packets, t.waits, 8);
    let mut n: usize = 0;
    let mut k: usize = 0;
    for i in (0..8).rev() {
        let hit = i < used && is_match(t.table[i], one, key);
        n = pick(hit, n + 1, n);
        k = pick(hit, i, k);
    }
    pick(asked && n == 1, Some(k), None)
}

// Takes the place at k out of those up to last, if last is one of the first 8: those behind it move by one place to the front, and last is free. Else k
// is not one of the first 8 either, and nothing changes.
fn removed_at(t: Places, k: usize, last: usize) -> Places
    requires { (ltb last 8 ≡ true → k ≤ last) × (ltb last 8 ≡ false → 8 ≤ k) }
    ensures { result ≡ record { packets = t.packets; waits = t.waits; table = pick (ltb last 8) (removed_at k last free t.table) t.table } }
{
    let mut out = t;
    for i in 0..8 {
        let moved = place_if(k <= i && i < last, t.table[i + 1], t.table[i]);
        out.table[i] = place_if(i == last, FREE, moved);
    }
    out
}

// The table without the place at k, if that is used and at most 8 are; else as it was.
pub fn without_place(t: Places, k: usize) -> Places
    ensures { result ≡ pick (is_among_eight k t) (without_place k t) t }
{
    let packets = t.packets;
    let waits = t.waits;
    let used = used_within(packets, waits, 8);
    let is_used = k < used;
    let mut out = removed_at(
        t,
        pick(is_used, k, 8),
        pick(is_used, used.saturating_sub(1), 8),
    );
    out.packets = pick(is_used && k < packets, packets.saturating_sub(1), packets);
    out.waits = pick(is_used && packets <= k, waits.saturating_sub(1), waits);
    out
}
