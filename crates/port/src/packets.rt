// The packets of a table of places: taking the oldest. After signal/port.rs.
ghost use Rattle.std.specs.Prelude.{◌≡◌, not, ◌+◌, leb, eqb};
ghost use Rattle.definition.specs.Status.{pick, ◌and◌};
ghost use Rattle.port.specs.places.Table.{only_packet};
ghost use Rattle.definition.specs.Port.{take_of};

use crate::places::{FREE, is_only_packet, is_sound};
use definition::{Answer, Next, Places, PortPacket, Record, Status};

// Whether a packet is to be taken and there is one, in a sound table.
fn has_packet(asked: bool, packets: usize, waits: usize) -> bool
    ensures { result ≡ (asked and leb (packets + waits) 128 and not (eqb packets 0)) }
{
    asked && is_sound(packets, waits) && packets != 0
}

// Removes the oldest packet, if that is asked and possible: what stands behind it moves by one place to the front.
pub fn taken(t: Places, asked: bool) -> Places
    ensures { result ≡ pick asked (take_of t).places t }
{
    let packets = t.packets;
    let waits = t.waits;
    let mut out = t;
    if has_packet(asked, packets, waits) {
        let used = packets + waits;
        out.table.copy_within(1..used, 0);
        out.table[used - 1] = FREE;
        out.packets = packets - 1;
    }
    out
}

// The same for a table whose only place used is a packet. It stands in the first place: no index is computed, so that the compiler changes the
// place where it stands and copies nothing.
pub fn only_taken(t: Places, asked: bool) -> Places
    ensures { result ≡ pick (asked and only_packet t) (take_of t).places t }
{
    let mut out = t;
    if asked && is_only_packet(t.packets, t.waits) {
        out.table[0] = FREE;
        out.packets = 0;
    }
    out
}

// The answer to taking the oldest packet.
pub fn oldest(t: Places) -> Answer
    ensures { result ≡ (take_of t).answer }
{
    if !is_sound(t.packets, t.waits) {
        return Err(Status::Internal);
    }
    if t.packets == 0 {
        return Err(Status::ShouldWait);
    }
    let p = t.table[0];
    Ok(Record::Packet(PortPacket {
        key: p.key,
        trigger: p.mask,
        observed: p.observed,
        count: 1,
        timestamp: 0,
    }))
}

// Takes the oldest packet.
pub fn take(t: Places) -> Next
    ensures { result ≡ take_of t }
{
    Next {
        places: taken(t, true),
        answer: oldest(t),
    }
}

// Takes the oldest packet of a table that the caller keeps.
pub fn take_from(t: &mut Places) -> Answer
    ensures { (result ≡ (take_of t.old).answer) × (t.new ≡ (take_of t.old).places) }
{
    let r = take(*t);
    *t = r.places;
    r.answer
}
