// A change of an end's word: the waits that it fires become packets. After `signal_change` of object/mod.rs.
ghost use Rattle.std.specs.Prelude.{◌≡◌, true, not, ◌+◌, ◌≤◌, get_or, eqb};
ghost use Rattle.definition.specs.Status.{pick, ◌and◌};
ghost use Rattle.definition.specs.Port.{free, observe, fires, fired_of, change_of};
ghost use Rattle.port.specs.places.Table.{only_wait};

use crate::firing::is_fired;
use crate::places::{is_only_wait, is_sound, sound_answer};
use definition::{Change, Place, Places};
use endpoint::choice::pick;
use endpoint::ends::Pending;
use endpoint::signal::changed;

// The wait as a packet.
fn observed_at(p: Place, word: u32) -> Place
    ensures { result ≡ observe word p }
{
    Place {
        observed: word,
        ..p
    }
}

// Visits the waits from the newest to the oldest, if `visit` says so. Those that fire go behind the packets, the others to the end of the used places.
fn fired(t: Places, one: bool, word: u32, visit: bool) -> Places
    requires { visit ≡ true → t.packets + t.waits ≤ 128 }
    ensures { result ≡ pick visit (fired_of one word t) t }
{
    let packets = t.packets;
    let waits = t.waits;
    let mut out = t;
    if visit {
        let used = packets + waits;
        let mut front = packets;
        let mut back = used;
        for i in (packets..used).rev() {
            let p = t.table[i];
            if is_fired(p, one, word) {
                out.table[front] = observed_at(p, word);
                front += 1;
            } else {
                back -= 1;
                out.table[back] = p;
            }
        }
        out.packets = front;
        out.waits = used - front;
    }
    out
}

// Whether the only place used is a wait, and a change to this word fires it.
fn only_fires(t: Places, one: bool, word: u32, next: u32) -> bool
    ensures { result ≡ (only_wait t and not (eqb next word) and fires one next (get_or t.table 0 free)) }
{
    is_only_wait(t.packets, t.waits) && next != word && is_fired(t.table[0], one, next)
}

// Visits the wait of a table whose only place used is a wait. It stands in the first place, so that no index is computed, and the compiler
// leaves one copy of the table.
pub fn only_visited(t: Places, a: Pending) -> Places
    ensures { result ≡ pick (only_wait t) (change_of a.one a.word a.clear a.set t).places t }
{
    let next = changed(a.word, a.clear, a.set);
    let wait = t.table[0];
    let packet = observed_at(wait, next);
    let mut out = t;
    if only_fires(t, a.one, a.word, next) {
        out.table[0] = packet;
        out.packets = 1;
        out.waits = 0;
    }
    out
}

// Changes that end's word. If it is another then, the end's waits whose mask meets it become packets, newest first.
pub fn change(t: Places, a: Pending) -> Change
    ensures { result ≡ change_of a.one a.word a.clear a.set t }
{
    let sound = is_sound(t.packets, t.waits);
    let next = pick(sound, changed(a.word, a.clear, a.set), a.word);
    Change {
        places: fired(t, a.one, next, next != a.word),
        word: next,
        answer: sound_answer(sound),
    }
}
