// Whether a change of an end's word fires a wait. After `signal_change` of object/mod.rs.
ghost use Rattle.std.specs.Prelude.{◌≡◌, ◌+◌, ◌≤◌, eqb, leb};
ghost use Rattle.definition.specs.Status.{◌and◌};
ghost use Rattle.definition.specs.Port.{waits_of, fires, any_fires, fires_of};

use crate::places::{end_number, is_sound};
use definition::{Place, Places};

// Whether the wait is of that end and its mask meets the word.
pub fn is_fired(p: Place, one: bool, word: u32) -> bool
    ensures { result ≡ fires one word p }
{
    p.end == end_number(one) && word & p.mask != 0
}

// Whether any wait of that end meets the word. Nothing is changed.
fn any_fires(t: Places, one: bool, word: u32) -> bool
    requires { t.packets + t.waits ≤ 128 }
    ensures { result ≡ any_fires one word (waits_of t) }
{
    let used = t.packets + t.waits;
    t.table[t.packets..used]
        .iter()
        .any(|p| is_fired(*p, one, word))
}

// Whether there are at most 8 waits, and no packets before them.
fn has_few(packets: usize, waits: usize) -> bool
    ensures { result ≡ (eqb packets 0 and leb waits 8) }
{
    packets == 0 && waits <= 8
}

// Whether a wait of that end meets the word, in a table of at most 8 waits and no packet. The compiler unrolls a loop of 8 turns, so that each place
// is read where it stands; for an index that is computed it copies the table first.
fn few_fire(t: Places, one: bool, word: u32) -> bool
    requires { (t.packets ≡ 0) × (t.waits ≤ 8) }
    ensures { result ≡ any_fires one word (waits_of t) }
{
    for i in 0..8 {
        if i < t.waits && is_fired(t.table[i], one, word) {
            return true;
        }
    }
    false
}

// Whether a change of that end's word to this one fires a wait.
pub fn fires(t: Places, one: bool, word: u32) -> bool
    ensures { result ≡ fires_of one word t }
{
    if !is_sound(t.packets, t.waits) {
        return false;
    }
    if has_few(t.packets, t.waits) {
        return few_fire(t, one, word);
    }
    any_fires(t, one, word)
}
