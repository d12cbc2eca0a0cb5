// Info.
ghost use Rattle.std.specs.Prelude.{◌≡◌, []};
ghost use Rattle.definition.specs.Pair.{is_one, own};
ghost use Rattle.definition.specs.Tests.{lent_of};
ghost use Rattle.definition.specs.Info.{info_answer};

use crate::sizes::get_info;
use crate::tests::{handle_test, sound_test, table_test};
use definition::{Answer, Ends, Record};

// The tests of info, then the record.
pub fn info_answer(p: Ends, handle: u32, table: &[u32]) -> Answer
    ensures { result ≡ info_answer p (lent_of p.datagram (own (is_one handle) p).queue [] table.now) handle }
{
    sound_test(p)?;
    let own = endpoint::ends::own(p, handle == 1);
    let q = own.queue;
    table_test(p.datagram, p.capacity, handle, q, table)?;
    handle_test(p, handle)?;
    let first = endpoint::end::first_length(q, p.datagram, table);
    Ok(Record::Info(get_info(
        p.datagram,
        p.capacity,
        own,
        endpoint::ends::peer(p, handle == 1),
        first,
    )))
}
