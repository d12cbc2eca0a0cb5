// Disposition by numbers and shutdown by bits, which change the two ends and leave the visit of the waits for later.
ghost use Rattle.std.specs.Prelude.{◌≡◌};
ghost use Rattle.definition.specs.Pair.{is_one, own, peer};
ghost use Rattle.definition.specs.Disposition.{disposition_of, dispose_effect, user_dispose_answer};
ghost use Rattle.definition.specs.Shutdown.{shut_effect, shuts_read, shuts_write, user_shutdown_answer};
ghost use Rattle.control.specs.ByEffect.{moved_if};

use definition::{Disposition, Ends};
use endpoint::end::has_bit;
use endpoint::ends::{EndsOutcome, unchanged};

// The bits of a shutdown's options; others are ignored.
const SHUTDOWN_WRITE: u32 = 1;

const SHUTDOWN_READ: u32 = 2;

// Disables or enables the writing of an end and of its peer, by numbers, but leaves the visit of the waits for later.
pub fn dispose_ends(e: Ends, handle: u32, disposition: u32, peer_disposition: u32) -> EndsOutcome
    ensures { result ≡ moved_if e handle (user_dispose_answer e handle disposition peer_disposition) (dispose_effect (own (is_one handle) e) (peer (is_one handle) e) (disposition_of disposition) (disposition_of peer_disposition)) }
{
    let a = user_answers::lookup::dispose_answer(e, handle, disposition, peer_disposition);
    match (
        Disposition::try_from(disposition),
        Disposition::try_from(peer_disposition),
    ) {
        (Ok(own), Ok(peer)) if a.is_ok() => control::disposition::dispose_ends(
            e, handle, own, peer,
        ),
        _ => unchanged(e, a),
    }
}

// Prevents reading or writing by the end of a handle, by bits, with the negated flags for an open peer, but leaves the visit of the waits for
// later.
pub fn shutdown_ends(e: Ends, handle: u32, options: u32) -> EndsOutcome
    ensures { result ≡ moved_if e handle (user_shutdown_answer e handle) (shut_effect (own (is_one handle) e) (peer (is_one handle) e) (shuts_read options) (shuts_write options)) }
{
    match user_answers::lookup::shutdown_answer(e, handle) {
        Err(status) => unchanged(e, Err(status)),
        Ok(_) => {
            let read = has_bit(options, SHUTDOWN_READ);
            let write = has_bit(options, SHUTDOWN_WRITE);
            control::ends::shutdown_ends(e, handle, read, write)
        }
    }
}
