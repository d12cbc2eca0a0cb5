// Waits and their packets. Whether a call is done is passed on to the table, so that the next table is made by the same statements in either case.
ghost use Rattle.std.specs.Prelude.{◌≡◌};
ghost use Rattle.definition.specs.Status.{pick, is_done};
ghost use Rattle.port.specs.places.Table.{unused, only_packet};
ghost use Rattle.definition.specs.Pair.{is_one};
ghost use Rattle.definition.specs.Port.{take_answer, Takes, Waits};
ghost use Rattle.socket.specs.Deferred.{registered_pair, taken_pair, appends_few, appended_pair};
ghost use Rattle.socket.specs.Step.{inner_step};

use crate::{SocketPair, SocketStep, parts};
use definition::{Answer, Pair};

// The pair with a wait more, if the answer is done.
pub fn registered(p: Pair, a: Answer, handle: u32, key: u64, mask: u32, edge: u8) -> Pair
    ensures { result ≡ registered_pair (is_done a) (is_one handle) key mask edge p }
{
    let one = handle == 1;
    let e = parts::own(p, one);
    let next = port::waits::registered(p.places, a.is_ok(), one, e.signals, key, mask, edge == 1);
    parts::with_places(p, next)
}

// Whether no place is used.
pub fn is_unused(p: Pair) -> bool
    ensures { result ≡ unused p.places }
{
    port::places::is_unused(p.places.packets, p.places.waits)
}

// The same as `registered` for a pair of which no place is used. It stands apart for speed: the first place alone is stored, and not the table.
pub fn registered_first(p: Pair, a: Answer, handle: u32, key: u64, mask: u32, edge: u8) -> Pair
    ensures { result ≡ pick (unused p.places) (registered_pair (is_done a) (is_one handle) key mask edge p) p }
{
    let one = handle == 1;
    let e = parts::own(p, one);
    let next = port::waits::first_registered(
        p.places,
        a.is_ok(),
        one,
        e.signals,
        key,
        mask,
        edge == 1,
    );
    parts::with_first_places(p, next)
}

// Whether at most 7 places are used, and a wait with this mask does not fire as it is registered.
pub fn appends_few(p: Pair, handle: u32, mask: u32, edge: u8) -> bool
    ensures { result ≡ appends_few (is_one handle) mask edge p }
{
    let e = parts::own(p, handle == 1);
    port::waits::appends_few(p.places.packets, p.places.waits, e.signals, mask, edge == 1)
}

// The pair with a wait behind the others, if the answer is done and at most 7 places are used; else as it was. Where `appends_few` holds, this is what
// `registered` gives; it stands apart for speed, since one of the first 8 places alone is stored.
pub fn registered_last(p: Pair, a: Answer, handle: u32, key: u64, mask: u32) -> Pair
    ensures { result ≡ appended_pair (is_done a) (is_one handle) key mask p }
{
    let next = port::few::appended(p.places, a.is_ok(), handle == 1, key, mask);
    parts::with_first_places(p, next)
}

// The tests of a take, then the oldest packet.
pub fn take_answer(p: Pair) -> Answer
    ensures { result ≡ take_answer p }
{
    answers::tests::sound_test(parts::ends_of(p))?;
    port::packets::oldest(p.places)
}

// The pair without its oldest packet, if the answer is done.
pub fn taken(p: Pair, a: Answer) -> Pair
    ensures { result ≡ taken_pair (is_done a) p }
{
    parts::with_places(p, port::packets::taken(p.places, a.is_ok()))
}

// Whether the only place used is a packet. Each of three such tests is one definition: `unused`, `only_wait` and `only_packet` of the table.
pub fn has_only_packet(p: Pair) -> bool
    ensures { result ≡ only_packet p.places }
{
    port::places::is_only_packet(p.places.packets, p.places.waits)
}

// The same as `taken` for a pair whose only place used is a packet. It stands apart for speed: the first place alone is stored, and not the table.
pub fn taken_only(p: Pair, a: Answer) -> Pair
    ensures { result ≡ pick (only_packet p.places) (taken_pair (is_done a) p) p }
{
    parts::with_first_places(p, port::packets::only_taken(p.places, a.is_ok()))
}

impl SocketPair {
    // Registers a wait of an end. It may fire now, by the word as it is; with edge 1 only a later change fires it. Key, mask and edge stand one by one,
    // as `murgwethan_wait` has them for C, and `Waits` of the definition.
    pub fn wait(self, handle: u32, key: u64, mask: u32, edge: u8) -> SocketStep
        ensures { Waits self.inner handle key mask edge (inner_step result) }
    {
        let a = answers::control_calls::wait_answer(parts::ends_of(self.inner), handle, edge);
        SocketStep {
            pair: SocketPair {
                inner: registered(self.inner, a, handle, key, mask, edge),
            },
            answer: a,
        }
    }

    // Takes the oldest packet.
    pub fn take(self) -> SocketStep
        ensures { Takes self.inner (inner_step result) }
    {
        let a = take_answer(self.inner);
        SocketStep {
            pair: SocketPair {
                inner: taken(self.inner, a),
            },
            answer: a,
        }
    }
}
