// The answer of a read or peek: its tests in their order, over both ends of a pair, then the size. After `Socket::read` of ipc/socket.rs.
ghost use Rattle.std.specs.Prelude.{◌≡◌};
ghost use Rattle.definition.specs.Pair.{is_one, own};
ghost use Rattle.definition.specs.Tests.{lent_of};
ghost use Rattle.definition.specs.Read.{read_answer};

use crate::sizes::read_size;
use definition::{Answer, Ends};

// The tests of a read or peek, then its size.
pub fn read_answer(p: Ends, handle: u32, ring: &[u8], table: &[u32], n: usize) -> Answer
    ensures { result ≡ read_answer p (lent_of p.datagram (own (is_one handle) p).queue ring.now table.now) handle n }
{
    crate::tests::sound_test(p)?;
    let from = endpoint::ends::own(p, handle == 1);
    let q = from.queue;
    crate::tests::slices_test(p.datagram, p.capacity, handle, q, ring, table)?;
    crate::tests::handle_test(p, handle)?;
    let first = endpoint::end::first_length(q, p.datagram, table);
    read_size(
        p.datagram,
        from,
        endpoint::ends::peer(p, handle == 1),
        first,
        n,
    )
}
