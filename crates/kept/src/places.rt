// A pair that is kept behind a reference: the next pair of a create, a wait and a take, stored there. A wait where no place is used, a wait that goes
// behind at most 7, and a take of the only place used change the table of places where it stands; in the compiled code every other wait and take copies it
// out and back.
ghost use Rattle.std.specs.Prelude.{◌≡◌, eqb};
ghost use Rattle.definition.specs.Status.{pick, is_done, answer_word};
ghost use Rattle.answers.specs.create.Held.{held_rights};
ghost use Rattle.definition.specs.Pair.{is_one};
ghost use Rattle.definition.specs.Create.{new_pair};
ghost use Rattle.socket.specs.Deferred.{registered_pair, taken_pair};

use definition::{Answer, Pair};

// A new pair, if the answer is done.
pub fn create(
    p: &mut Pair,
    a: Answer,
    kind: u32,
    capacity: u32,
    rights_one: u32,
    rights_two: u32,
) -> i64
    ensures { (result ≡ answer_word a) × (p.new ≡ pick (is_done a) (new_pair (eqb kind 1) capacity (held_rights rights_one) (held_rights rights_two)) p.old) }
{
    let w = endpoint::answer::word(a);
    if a.is_ok() {
        *p = socket::new_pair(kind, capacity, rights_one, rights_two);
    }
    w
}

// A wait more, if the answer is done. All three ways leave the same pair; the first two change the table where it stands.
pub fn wait(p: &mut Pair, a: Answer, handle: u32, key: u64, mask: u32, edge: u8) -> i64
    ensures { (result ≡ answer_word a) × (p.new ≡ registered_pair (is_done a) (is_one handle) key mask edge p.old) }
{
    let w = endpoint::answer::word(a);
    if socket::is_unused(*p) {
        *p = socket::registered_first(*p, a, handle, key, mask, edge);
    } else if socket::appends_few(*p, handle, mask, edge) {
        *p = socket::registered_last(*p, a, handle, key, mask);
    } else {
        *p = socket::registered(*p, a, handle, key, mask, edge);
    }
    w
}

// The oldest packet gone, if the answer is done.
pub fn take(p: &mut Pair, a: Answer) -> i64
    ensures { (result ≡ answer_word a) × (p.new ≡ taken_pair (is_done a) p.old) }
{
    let w = endpoint::answer::word(a);
    if socket::has_only_packet(*p) {
        *p = socket::taken_only(*p, a);
    } else {
        *p = socket::taken(*p, a);
    }
    w
}
