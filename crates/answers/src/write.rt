// The answer of a write: its tests in their order, over both ends of a pair, then the size. After `Socket::write_size` of ipc/socket.rs.
ghost use Rattle.std.specs.Prelude.{◌≡◌};
ghost use Rattle.definition.specs.Pair.{is_one, peer};
ghost use Rattle.definition.specs.Tests.{lent_of};
ghost use Rattle.definition.specs.Write.{write_answer};

use crate::write_size::write_size;
use definition::{Answer, Ends};

// The tests of a write, then its size.
pub fn write_answer(p: Ends, handle: u32, ring: &[u8], table: &[u32], n: usize) -> Answer
    ensures { result ≡ write_answer p (lent_of p.datagram (peer (is_one handle) p).queue ring.now table.now) handle n }
{
    crate::tests::sound_test(p)?;
    let to = endpoint::ends::peer(p, handle == 1);
    let q = to.queue;
    crate::tests::slices_test(p.datagram, p.capacity, handle, q, ring, table)?;
    crate::tests::handle_test(p, handle)?;
    write_size(
        p.datagram,
        p.capacity,
        endpoint::ends::own(p, handle == 1),
        to,
        n,
    )
}
