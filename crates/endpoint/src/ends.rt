// Both ends of a pair without its table of places, and what a call leaves of the two ends. After `Socket` of ipc/socket.rs.
ghost use Rattle.std.specs.Prelude.{◌≡◌};
ghost use Rattle.definition.specs.Pair.{is_one, own, peer};

use definition::{Answer, Endpoint, Ends};

mod change;
mod choice;

pub use change::{can_fire, keeps_word, kept_ends, no_visits, put_back, unchanged};
pub use choice::queue_if;

// A change of an end's word, from `word`, whose waits are not visited yet.
#[derive(Clone, Copy)]
pub struct Pending {
    pub one: bool,
    pub word: u32,
    pub clear: u32,
    pub set: u32,
}

// Two changes, in their order.
#[derive(Clone, Copy)]
pub struct Visits {
    pub first: Pending,
    pub second: Pending,
}

// No change: one that clears and sets no bit of the word 0, as the definition `no_visit` says it.
pub const NO_VISIT: Pending = Pending {
    one: true,
    word: 0,
    clear: 0,
    set: 0,
};

// The caller's end and its peer after a call, and the changes of their words.
#[derive(Clone, Copy)]
pub struct Moved {
    pub own: Endpoint,
    pub peer: Endpoint,
    pub visits: Visits,
}

// The two ends after a call, its answer, whether the waits are to be looked at, and the changes whose waits are then to be visited: those of
// `visits`, then those of `more`, which only a disposition has. The waits are looked at where a wait can fire; by a close, where there are any.
// The flag stands beside the changes, and is no Option of them, since the definition `outcome_of` has the changes of a call that fires no wait too.
#[derive(Clone, Copy)]
pub struct EndsOutcome {
    pub one: Endpoint,
    pub two: Endpoint,
    pub answer: Answer,
    pub fires: bool,
    pub visits: Visits,
    pub more: Visits,
}

// The two ends as the caller of a call sees them: whether its handle is that of end 1, its own end, and the peer.
#[derive(Clone, Copy)]
pub struct Sides {
    pub one: bool,
    pub own: Endpoint,
    pub peer: Endpoint,
}

// The two ends as the end of a handle sees them.
pub fn sides_of(e: Ends, handle: u32) -> Sides
    ensures { result ≡ record { one = is_one handle; own = own (is_one handle) e; peer = peer (is_one handle) e } }
{
    let one = handle == 1;
    Sides {
        one,
        own: own(e, one),
        peer: peer(e, one),
    }
}

pub fn own(e: Ends, one: bool) -> Endpoint
    ensures { result ≡ own one e }
{
    choice::end_if(one, e.one, e.two)
}

pub fn peer(e: Ends, one: bool) -> Endpoint
    ensures { result ≡ peer one e }
{
    choice::end_if(one, e.two, e.one)
}
