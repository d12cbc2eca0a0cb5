// The outcome of a call on the two ends, and whether a wait can fire.
ghost use Rattle.std.specs.Prelude.{◌≡◌};
ghost use Rattle.endpoint.specs.ends.Outcome.{no_visits, keeps_word, can_fire, any_can_fire, outcome_of, kept_ends, unchanged_ends};

use crate::ends::choice::end_if;
use crate::ends::{EndsOutcome, Moved, NO_VISIT, Pending, Visits};
use crate::signal::changed;
use definition::{Answer, Endpoint, Ends};

// No changes.
pub fn no_visits() -> Visits
    ensures { result ≡ no_visits }
{
    Visits {
        first: NO_VISIT,
        second: NO_VISIT,
    }
}

// Whether a change leaves the word as it is.
pub fn keeps_word(a: Pending) -> bool
    ensures { result ≡ keeps_word a }
{
    changed(a.word, a.clear, a.set) == a.word
}

// Whether a visit can fire a wait: there are waits, and a word has changed.
pub fn can_fire(waits: usize, v: Visits) -> bool
    ensures { result ≡ can_fire waits v }
{
    waits != 0 && (!keeps_word(v.first) || !keeps_word(v.second))
}

// Whether one of all changes can.
fn any_fires(waits: usize, v: Visits, more: Visits) -> bool
    ensures { result ≡ any_can_fire waits v more }
{
    can_fire(waits, v) || can_fire(waits, more)
}

// The caller's end and its peer, put back by the caller's handle.
pub fn put_back(waits: usize, one: bool, answer: Answer, moved: Moved, more: Visits) -> EndsOutcome
    ensures { result ≡ outcome_of waits one answer moved more }
{
    let Moved { own, peer, visits } = moved;
    EndsOutcome {
        one: end_if(one, own, peer),
        two: end_if(one, peer, own),
        answer,
        fires: any_fires(waits, visits, more),
        visits,
        more,
    }
}

// A call that changes no end. The ends come one by one, as the definition `kept_ends` takes them.
pub fn kept_ends(own: Endpoint, peer: Endpoint) -> Moved
    ensures { result ≡ kept_ends own peer }
{
    Moved {
        own,
        peer,
        visits: no_visits(),
    }
}

// The outcome of a call that changes nothing.
pub fn unchanged(p: Ends, answer: Answer) -> EndsOutcome
    ensures { result ≡ unchanged_ends p answer }
{
    EndsOutcome {
        one: p.one,
        two: p.two,
        answer,
        fires: false,
        visits: no_visits(),
        more: no_visits(),
    }
}
