// One change of an end's word.
ghost use Rattle.std.specs.Prelude.{◌≡◌};
ghost use Rattle.definition.specs.Effect.{own_bit};
ghost use Rattle.endpoint.specs.ends.Outcome.{no_visit, no_visits, outcome_of};
ghost use Rattle.control.specs.ByEffect.{visit_at, changed_end};

use definition::{Answer, Endpoint};
use endpoint::bits::bit_if;
use endpoint::ends::{EndsOutcome, Moved, NO_VISIT, Pending, Visits};
use endpoint::signal::changed;

// One bit of a word, set or cleared.
pub fn bit_visit(one: bool, word: u32, on: bool, bit: u32) -> Pending
    ensures { result ≡ visit_at one word (own_bit on bit) }
{
    Pending {
        one,
        word,
        clear: bit_if(!on, bit),
        set: bit_if(on, bit),
    }
}

// The end with its word changed.
pub fn changed_end(e: Endpoint, a: Pending) -> Endpoint
    ensures { result ≡ changed_end a e }
{
    endpoint::end::with_signals(e, changed(a.word, a.clear, a.set))
}

// The two ends after a call with two changes. The ends come one by one, here and in `first_only`: a `Moved` is made of them.
pub fn with_visits(own: Endpoint, peer: Endpoint, first: Pending, second: Pending) -> Moved
    ensures { result ≡ record { own = own; peer = peer; visits = record { first = first; second = second } } }
{
    Moved {
        own,
        peer,
        visits: Visits { first, second },
    }
}

// The two ends after a call with one change.
pub fn first_only(own: Endpoint, peer: Endpoint, first: Pending) -> Moved
    ensures { result ≡ record { own = own; peer = peer; visits = record { first = first; second = no_visit } } }
{
    with_visits(own, peer, first, NO_VISIT)
}

// The outcome of a call with at most two changes.
pub fn put_both(waits: usize, one: bool, answer: Answer, moved: Moved) -> EndsOutcome
    ensures { result ≡ outcome_of waits one answer moved no_visits }
{
    endpoint::ends::put_back(waits, one, answer, moved, endpoint::ends::no_visits())
}
