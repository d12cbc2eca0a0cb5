// The visits of the waits after a call has changed words, over the table of places alone. The changes stand in the call's `EndsOutcome`.
ghost use Rattle.std.specs.Prelude.{◌≡◌};
ghost use Rattle.definition.specs.Status.{pick};
ghost use Rattle.port.specs.places.Table.{only_wait};
ghost use Rattle.port.specs.visits.Visits.{changes_of, due, any_due, visited, visited_each};

use crate::signal_change::{change, only_visited};
use definition::Places;
use endpoint::ends::{EndsOutcome, Pending};
use endpoint::signal::changed;

// Whether a change fires a wait. The table is only read.
fn is_due(t: Places, a: Pending) -> bool
    ensures { result ≡ due a t }
{
    if endpoint::ends::keeps_word(a) {
        return false;
    }
    crate::firing::fires(t, a.one, changed(a.word, a.clear, a.set))
}

// All changes of a call, in their order.
fn changes(r: EndsOutcome) -> [Pending; 4]
    ensures { result ≡ changes_of r }
{
    [r.visits.first, r.visits.second, r.more.first, r.more.second]
}

// Whether one of all changes of a call fires a wait. `is_due` is asked in one place, in a loop, so that the compiler inlines it; as a chain over the
// array it takes a fifth longer.
pub fn any_due(t: Places, r: EndsOutcome) -> bool
    ensures { result ≡ any_due r t }
{
    for a in changes(r) {
        if is_due(t, a) {
            return true;
        }
    }
    false
}

// Visits the waits of one change.
pub fn visited(t: Places, a: Pending) -> Places
    ensures { result ≡ visited a t }
{
    let c = change(t, a);
    let places = c.places;
    places
}

// Visits the waits of all changes of a call, in a table whose only place used is a wait. Any other table
// stays as it is.
pub fn visited_alone(t: Places, r: EndsOutcome) -> Places
    ensures { result ≡ pick (only_wait t) (visited_each r t) t }
{
    let mut u = only_visited(t, r.visits.first);
    u = only_visited(u, r.visits.second);
    u = only_visited(u, r.more.first);
    only_visited(u, r.more.second)
}
