// The waits of a table of places: registering one, and dropping those of an end. After signal/port.rs. What a wait is made
// of stands one by one, as the exported call passes it: a record of it would be filled at one call and read at the next.
ghost use Rattle.std.specs.Prelude.{◌≡◌, true, not, ◌+◌, ◌≤◌, ◌<◌, leb, ltb};
ghost use Rattle.definition.specs.Status.{pick, ◌and◌};
ghost use Rattle.definition.specs.Signal.{meets};
ghost use Rattle.port.specs.places.Table.{unused};
ghost use Rattle.definition.specs.Port.{end_number, inserted_of, appended_of, dropped_of, register_of, drop_of};

use crate::places::{FREE, end_number, is_sound, is_unused, sound_answer, uses_at_most};
use definition::{Next, Place, Places};
use endpoint::choice::pick;

// Whether a place is to be used and fewer than 128 are.
fn has_room(asked: bool, packets: usize, waits: usize) -> bool
    ensures { result ≡ (asked and ltb (packets + waits) 128) }
{
    asked && uses_at_most(packets, waits, 127)
}

// Whether a wait fires as it is registered.
fn fires_at_once(word: u32, mask: u32, edge: bool) -> bool
    ensures { result ≡ (not edge and meets word mask) }
{
    !edge && word & mask != 0
}

// Whether at most 7 places are used and a wait does not fire as it is registered, so that it goes behind the waits.
pub fn appends_few(packets: usize, waits: usize, word: u32, mask: u32, edge: bool) -> bool
    ensures { result ≡ (not (not edge and meets word mask) and leb (packets + waits) 7) }
{
    !fires_at_once(word, mask, edge) && uses_at_most(packets, waits, 7)
}

// Puts a packet behind the packets, or a wait behind the waits, if there is room: what stands behind it moves by one place to the back.
fn placed(t: Places, p: Place, packet: bool, room: bool) -> Places
    requires { room ≡ true → t.packets + t.waits < 128 }
    ensures { result ≡ pick room (pick packet (inserted_of p t) (appended_of p t)) t }
{
    let packets = t.packets;
    let waits = t.waits;
    let mut out = t;
    if room {
        let used = packets + waits;
        let at = pick(packet, packets, used);
        let more = pick(packet, 1, 0);
        out.table.copy_within(at..used, at + 1);
        out.table[at] = p;
        out.packets = packets + more;
        out.waits = waits + 1 - more;
    }
    out
}

// A wait as it is registered, or the packet that it becomes now.
fn new_place(one: bool, word: u32, key: u64, mask: u32, now: bool) -> Place
    ensures { result ≡ record { key = key; mask = mask; observed = pick now word 0; end = end_number one } }
{
    Place {
        key,
        mask,
        observed: pick(now, word, 0),
        end: end_number(one),
    }
}

// The table with a wait more, or with its packet where it fires at once, if that is asked and there is room.
pub fn registered(
    t: Places,
    asked: bool,
    one: bool,
    word: u32,
    key: u64,
    mask: u32,
    edge: bool,
) -> Places
    ensures { result ≡ pick asked (register_of one word key mask edge t).places t }
{
    let now = fires_at_once(word, mask, edge);
    let p = new_place(one, word, key, mask, now);
    placed(t, p, now, has_room(asked, t.packets, t.waits))
}

// The same for a table of which no place is used. The wait or its packet comes into the first place: no index is computed, so that the compiler
// changes the place where it stands and copies nothing.
pub fn first_registered(
    t: Places,
    asked: bool,
    one: bool,
    word: u32,
    key: u64,
    mask: u32,
    edge: bool,
) -> Places
    ensures { result ≡ pick (asked and unused t) (register_of one word key mask edge t).places t }
{
    let now = fires_at_once(word, mask, edge);
    let p = new_place(one, word, key, mask, now);
    let packets = pick(now, 1, 0);
    let waits = pick(now, 0, 1);
    let mut out = t;
    if asked && is_unused(t.packets, t.waits) {
        out.table[0] = p;
        out.packets = packets;
        out.waits = waits;
    }
    out
}

// Removes that end's waits, if the table is sound: each wait's place is freed, and a wait of the other end goes behind those kept so far.
fn dropped(t: Places, one: bool, sound: bool) -> Places
    requires { sound ≡ true → t.packets + t.waits ≤ 128 }
    ensures { result ≡ pick sound (dropped_of one t) t }
{
    let end = end_number(one);
    let packets = t.packets;
    let waits = t.waits;
    let mut out = t;
    if sound {
        let used = packets + waits;
        let mut n = packets;
        for i in packets..used {
            let p = out.table[i];
            out.table[i] = FREE;
            if p.end != end {
                out.table[n] = p;
                n += 1;
            }
        }
        out.waits = n - packets;
    }
    out
}

// Removes that end's waits; its packets stay.
pub fn drop_waits(t: Places, one: bool) -> Next
    ensures { result ≡ drop_of one t }
{
    let sound = is_sound(t.packets, t.waits);
    Next {
        places: dropped(t, one, sound),
        answer: sound_answer(sound),
    }
}
