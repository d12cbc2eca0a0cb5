// The parts of a pair: its ends by the caller's handle, and its places. `one` names an end: true is end 1.
ghost use Rattle.std.specs.Prelude.{◌≡◌, length};
ghost use Rattle.definition.specs.Pair.{own, ends_of, shown_by, with_places};
ghost use Rattle.socket.specs.Step.{inner_step};

use crate::{SocketPair, SocketStep};
use answers::tests::is_handle;
use definition::{Endpoint, Ends, Pair, Places, SignalWord, Step};

// The pair without its table of places, of which every answer but those of take and cancel is made.
// The second clause says of the pair what a caller that keeps it behind a reference cannot read off it.
pub fn ends_of(p: Pair) -> Ends
    ensures ends { result ≡ ends_of p }
    ensures size { length p.places.table ≡ 128 }
{
    Ends {
        datagram: p.datagram,
        capacity: p.capacity,
        packets: p.places.packets,
        waits: p.places.waits,
        one: p.one,
        two: p.two,
    }
}

// End 1 if asked for it, else end 2.
pub fn own(p: Pair, one: bool) -> Endpoint
    ensures { result ≡ own one (ends_of p) }
{
    if one { p.one } else { p.two }
}

// The pair with its places replaced, assembled from its parts, so that the compiler leaves those in place that stay.
pub fn with_places(p: Pair, places: Places) -> Pair
    ensures { result ≡ with_places places p }
{
    Pair {
        datagram: p.datagram,
        spare1: p.spare1,
        spare2: p.spare2,
        capacity: p.capacity,
        one: p.one,
        two: p.two,
        places,
    }
}

// The same for places of which only the first 8 may change: the field is assigned, so that the compiler stores those where they stand, and nothing else.
pub fn with_first_places(mut p: Pair, places: Places) -> Pair
    ensures { result ≡ with_places places p }
{
    p.places = places;
    p
}

impl SocketPair {
    // The word that the end of a handle shows.
    pub fn signal(self, handle: u32) -> SignalWord
        ensures { result ≡ shown_by self.inner handle }
    {
        if !is_handle(handle) {
            return None;
        }
        endpoint::end::shown(own(self.inner, handle == 1))
    }
}

// A step as a method hands it back.
impl From<Step> for SocketStep {
    ghost from_gives = { λ s r. inner_step r ≡ s };

    fn from(s: Step) -> SocketStep {
        SocketStep {
            pair: SocketPair { inner: s.pair },
            answer: s.answer,
        }
    }
}

// What a method handed back, as a step.
impl From<SocketStep> for Step {
    ghost from_gives = { λ s r. r ≡ inner_step s };

    fn from(s: SocketStep) -> Step {
        Step {
            pair: s.pair.inner,
            answer: s.answer,
        }
    }
}
