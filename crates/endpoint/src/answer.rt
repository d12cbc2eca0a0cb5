// The answer of a call: the record of a done call, or the status of a refused one.
// After error.rs, `SocketInfo` of ipc/socket.rs and `PacketSignal` of signal/port_packet.rs.
ghost use Rattle.std.specs.Prelude.{◌≡◌};
ghost use Rattle.definition.specs.Status.{answer_word, count_of, status_number};

use definition::{Answer, Record, Status};

// A status' number without its sign.
fn status_number(s: Status) -> u64
    ensures { result ≡ status_number s }
{
    s as u64
}

// The answer as one word: the count, 0 for a record without one, or the status as a negative number.
pub fn word(a: Answer) -> i64
    ensures { result ≡ answer_word a }
{
    match a {
        Ok(Record::Count(n)) => i64::from(n),
        Ok(_) => 0,
        Err(s) => -(status_number(s) as i64),
    }
}

// The count of an answer, 0 for a refusal.
pub fn count_of(a: Answer) -> u32
    ensures { result ≡ count_of a }
{
    match a {
        Ok(Record::Count(n)) => n,
        _ => 0,
    }
}
