// Cancel.
ghost use Rattle.std.specs.Prelude.{◌≡◌, eqb, ltb, length, Some, None};
ghost use Rattle.definition.specs.Status.{pick, is_done, refuse_if, ◌then◌};
ghost use Rattle.std.specs.declared.result.Result.TheVariants.{Ok};
ghost use Rattle.definition.specs.declared.Record.TheVariants.{Count};
ghost use Rattle.definition.specs.declared.Status.TheVariants.{NotFound};
ghost use Rattle.definition.specs.Pair.{is_one, ends_of, with_places};
ghost use Rattle.definition.specs.Tests.{opening_test};
ghost use Rattle.definition.specs.Port.{Cancels};
ghost use Rattle.port.specs.few.Few.{only_match, is_among_eight, without_place};
ghost use Rattle.socket.specs.Step.{inner_step};

use crate::{SocketPair, SocketStep, parts};
use definition::{Answer, Pair, Record, Status, Step};

// The answer of a cancel, by that of the first tests and by how many waits and packets
// were removed.
fn cancel_answer(opened: Answer, removed: u32) -> Answer
    ensures { result ≡ (opened then refuse_if (eqb removed 0) NotFound then Ok (Count removed)) }
{
    if opened.is_err() {
        return opened;
    }
    if removed == 0 {
        return Err(Status::NotFound);
    }
    Ok(Record::Count(removed))
}

// Removes the waits of an end that have a key, and the packets that such waits made. Where nothing matches, the table comes back as it was.
pub fn cancelled(p: Pair, handle: u32, key: u64) -> Step
    ensures { Cancels p handle key result }
{
    let opened = answers::tests::opening_test(parts::ends_of(p), handle);
    let left = port::cancel::cancelled(p.places, opened.is_ok(), handle == 1, key);
    Step {
        pair: parts::with_places(p, left.places),
        answer: cancel_answer(opened, left.removed),
    }
}

// Where the only place that a cancel matches stands; `None` if it does not pass its first tests, if more than 8 places are used, or if none or several
// match. The first clause says of the pair what a caller that keeps it behind a reference cannot read off it.
pub fn only_match(p: Pair, handle: u32, key: u64) -> Option<usize>
    ensures size { length p.places.table ≡ 128 }
    ensures place { let k = only_match (is_done (opening_test (ends_of p) handle)) (is_one handle) key p.places in result ≡ pick (ltb k 8) (Some k) None }
{
    let opened = answers::tests::opening_test(parts::ends_of(p), handle);
    port::few::only_match(p.places, opened.is_ok(), handle == 1, key)
}

// The pair without the place at k, if that is used and at most 8 are; else as it was.
pub fn without_place(p: Pair, k: usize) -> Pair
    ensures { result ≡ with_places (pick (is_among_eight k p.places) (without_place k p.places) p.places) p }
{
    parts::with_first_places(p, port::few::without_place(p.places, k))
}

impl SocketPair {
    // Removes the waits of an end that have this key, and the packets that such waits made.
    pub fn cancel(self, handle: u32, key: u64) -> SocketStep
        ensures { Cancels self.inner handle key (inner_step result) }
    {
        cancelled(self.inner, handle, key).into()
    }
}
