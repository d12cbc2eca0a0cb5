// A pair that is kept behind a reference: the next pair of a write and of a read, stored there, and its waits visited.
ghost use Rattle.std.specs.Prelude.{◌≡◌};
ghost use Rattle.definition.specs.Status.{answer_word};
ghost use Rattle.transfer.specs.write.WriteChange.{wrote_by};
ghost use Rattle.transfer.specs.read.ReadChange.{read_by};
ghost use Rattle.definition.specs.Pair.{ends_of};
ghost use Rattle.socket.specs.Deferred.{settled_step};

use crate::transferred::{with_read, with_write};
use definition::Pair;
use socket::ends_of;
use transfer::change::Transfer;
use transfer::read::{is_read_without_visit, read_outcome};
use transfer::write::{is_write_without_visit, write_outcome};

// Both ends after a write, over user memory or not; then the waits are visited. Where bytes went in and no wait can fire, what changes is put into the
// pair without an outcome. The hint asks the compiler to inline it into each of its callers, which without one it does only where there is one caller:
// with a call left here a plain write and read of 64 bytes took 53 ns and not 42.
#[inline(always)]
pub fn wrote(p: &mut Pair, handle: u32, t: Transfer) -> i64
    ensures { (result ≡ answer_word t.answer) × (p.new ≡ (settled_step (wrote_by (ends_of p.old) handle t) p.old).pair) }
{
    let e = ends_of(*p);
    match t.change {
        Some(x) if is_write_without_visit(e, handle, t) => {
            *p = with_write(*p, handle, x);
            endpoint::answer::word(t.answer)
        }
        _ => crate::pair::outcome(p, write_outcome(e, handle, t)),
    }
}

// The same for a read; without an outcome only where its peer is open too. It is inlined for the same reason.
#[inline(always)]
pub fn read(p: &mut Pair, handle: u32, t: Transfer) -> i64
    ensures { (result ≡ answer_word t.answer) × (p.new ≡ (settled_step (read_by (ends_of p.old) handle t) p.old).pair) }
{
    let e = ends_of(*p);
    match t.change {
        Some(x) if is_read_without_visit(e, handle, t) => {
            *p = with_read(*p, handle, x);
            endpoint::answer::word(t.answer)
        }
        _ => crate::pair::outcome(p, read_outcome(e, handle, t)),
    }
}
