// A pair that is kept behind a reference: the next pair of a call that changes the ends, stored there, and its waits visited. In the compiled
// code the table of places is copied where it is rebuilt, and where more than eight waits, or waits behind packets, are looked through. A wait that
// stands alone is visited where it stands.
ghost use Rattle.std.specs.Prelude.{◌≡◌, eqb};
ghost use Rattle.definition.specs.Status.{pick, answer_word};
ghost use Rattle.definition.specs.Pair.{is_one};
ghost use Rattle.socket.specs.Deferred.{visited_all, settled_step, closed_waits, settled_close};

use definition::Pair;
use endpoint::ends::EndsOutcome;

// Visits the waits of an outcome, where one can fire, and gives the answer's word.
fn visit(p: &mut Pair, r: EndsOutcome) -> i64
    ensures { (result ≡ answer_word r.answer) × (p.new ≡ pick r.fires (visited_all r p.old) p.old) }
{
    let w = endpoint::answer::word(r.answer);
    if socket::needs_visit(*p, r) {
        if socket::has_only_wait(*p) {
            *p = socket::visit_only(*p, r);
        } else {
            *p = socket::visit_each(*p, r);
        }
    }
    w
}

// Both ends of an outcome; then the waits are visited.
pub fn outcome(p: &mut Pair, r: EndsOutcome) -> i64
    ensures { (result ≡ answer_word r.answer) × (p.new ≡ (settled_step r p.old).pair) }
{
    *p = socket::with_outcome(*p, r);
    visit(p, r)
}

// Drops the waits of the end of a handle, where there are any, then visits the others.
fn close_waits(p: &mut Pair, handle: u32, r: EndsOutcome) -> i64
    ensures { (result ≡ answer_word r.answer) × (p.new ≡ closed_waits (is_one handle) r p.old) }
{
    let w = endpoint::answer::word(r.answer);
    if r.fires {
        *p = socket::close_waits(*p, handle, r);
    }
    w
}

// Both ends of the outcome of a close; then the waits.
pub fn close(p: &mut Pair, handle: u32, r: EndsOutcome) -> i64
    ensures { (result ≡ answer_word r.answer) × (p.new ≡ (settled_close (is_one handle) r p.old).pair) }
{
    *p = socket::with_outcome(*p, r);
    close_waits(p, handle, r)
}
