// Disposition.
ghost use Rattle.std.specs.Prelude.{◌≡◌};
ghost use Rattle.definition.specs.Disposition.{dispose_answer};

use crate::tests::opening_test;
use definition::{Answer, Disposition, Ends};
use endpoint::end::dispose_checks;

// The tests of a disposition: both checks come before any change.
pub fn dispose_answer(
    p: Ends,
    handle: u32,
    disposition: Disposition,
    peer_disposition: Disposition,
) -> Answer
    ensures { result ≡ dispose_answer p handle disposition peer_disposition }
{
    opening_test(p, handle)?;
    let own = endpoint::ends::own(p, handle == 1);
    let peer = endpoint::ends::peer(p, handle == 1);
    dispose_checks(own, peer, disposition, peer_disposition)
}
