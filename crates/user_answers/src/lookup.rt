// The answers of the calls over user memory that move no bytes, disposition and shutdown: their tests in their order, over both ends of a pair. With
// the lookup of a handle and its right, and the buffer of a write or read. After zircon-syscall's socket.rs.
ghost use Rattle.std.specs.Prelude.{◌≡◌};
ghost use Rattle.definition.specs.Disposition.{disposition_of, user_dispose_answer};
ghost use Rattle.definition.specs.Shutdown.{user_shutdown_answer};
ghost use Rattle.definition.specs.Memory.{lookup};
ghost use Rattle.definition.specs.Memory;

use answers::tests::{handle_test, sound_test};
use definition::{Answer, Disposition, Ends, Record, Status};
use endpoint::end::dispose_checks;

// The rights of an end, as bits of its rights word: bits and no enum, since create is given that word as one number (`create_answer` of the
// definition).
pub const RIGHT_READ: u16 = 1;

pub const RIGHT_WRITE: u16 = 2;

pub const RIGHT_MANAGE: u16 = 4;

// Where the bytes and the count of a write or read lie in user memory that begins at `base`: `count` bytes from an address on, and the count of those
// moved at `count_at`, 0 for none.
#[derive(Clone, Copy)]
pub struct Buffer {
    pub base: u64,
    pub address: u64,
    pub count: u64,
    pub count_at: u64,
}

// The handle, then the right.
pub fn lookup(p: Ends, handle: u32, right: u16) -> Answer
    ensures { result ≡ lookup p handle right }
{
    handle_test(p, handle)?;
    if endpoint::ends::own(p, handle == 1).rights & right == 0 {
        return Err(Status::AccessDenied);
    }
    Ok(Record::Empty)
}

// What a number asks for an end's writing. A number above 2 asks for nothing: each call by numbers refuses it.
pub fn disposition_of(n: u32) -> Disposition
    ensures { result ≡ disposition_of n }
{
    Disposition::try_from(n).unwrap_or(Disposition::Unchanged)
}

// The tests of a disposition: both numbers come before the lookup.
pub fn dispose_answer(p: Ends, handle: u32, disposition: u32, peer_disposition: u32) -> Answer
    ensures { result ≡ user_dispose_answer p handle disposition peer_disposition }
{
    sound_test(p)?;
    let own_target = Disposition::try_from(disposition)?;
    let peer_target = Disposition::try_from(peer_disposition)?;
    lookup(p, handle, RIGHT_MANAGE)?;
    dispose_checks(
        endpoint::ends::own(p, handle == 1),
        endpoint::ends::peer(p, handle == 1),
        own_target,
        peer_target,
    )
}

// The tests of a shutdown. No options are refused.
pub fn shutdown_answer(p: Ends, handle: u32) -> Answer
    ensures { result ≡ user_shutdown_answer p handle }
{
    sound_test(p)?;
    lookup(p, handle, RIGHT_WRITE)
}
