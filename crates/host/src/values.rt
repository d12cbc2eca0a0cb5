// By value, what the exported calls need beside the calls of the pair: numbers for enums, records put into a lent array, and the answer of
// create by the lengths of its slices.
ghost use Rattle.std.specs.Prelude.{◌≡◌, [], length};
ghost use Rattle.definition.specs.Pair.{is_one, own, peer};
ghost use Rattle.definition.specs.Info.{AsksInfo};
ghost use Rattle.definition.specs.Threshold.{AsksThresholds};
ghost use Rattle.definition.specs.Port.{take_answer};
ghost use Rattle.definition.specs.Create.{create_answer};
ghost use Rattle.definition.specs.Disposition.{dispose_effect, disposition_of, plain_dispose_answer};
ghost use Rattle.control.specs.ByEffect.{moved_if};
ghost use Rattle.definition_runs.specs.Exported.{signal_number, threshold_numbers, info_numbers, packet_numbers, array_of, Recorded};

use answers::tests::opening_test;
use definition::{Answer, Disposition, Ends, Pair, Record, Status};
use endpoint::ends::{EndsOutcome, unchanged};
use socket::SocketPair;

// Disposition by its numbers, but for the visit of the waits. A number above 2 is refused; the record and the handle are tested before it.
pub fn dispose_ends(e: Ends, handle: u32, disposition: u32, peer_disposition: u32) -> EndsOutcome
    ensures { result ≡ moved_if e handle (plain_dispose_answer e handle disposition peer_disposition) (dispose_effect (own (is_one handle) e) (peer (is_one handle) e) (disposition_of disposition) (disposition_of peer_disposition)) }
{
    match (
        Disposition::try_from(disposition),
        Disposition::try_from(peer_disposition),
    ) {
        (Ok(own), Ok(peer)) => control::disposition::dispose_ends(e, handle, own, peer),
        _ => unchanged(e, opening_test(e, handle).and(Err(Status::InvalidArgs))),
    }
}

// The signal word of an end, after the tests of the record and of the handle, as a number.
pub fn signal(p: Pair, handle: u32) -> i64
    ensures { result ≡ signal_number p handle }
{
    let e = socket::ends_of(p);
    match opening_test(e, handle) {
        Err(status) => endpoint::answer::word(Err(status)),
        Ok(_) => endpoint::ends::own(e, handle == 1).signals as i64,
    }
}

// The numbers of thresholds, put into the array; of another record none. Each kind of record has such a function: its case and its fields are all that
// it says.
fn put_thresholds(a: Answer, out: &mut [u64; 2])
    ensures { out.new ≡ array_of threshold_numbers a out.old }
{
    if let Ok(Record::Limits(t)) = a {
        *out = [t.read, t.write];
    }
}

// The numbers of an info, put into the array; of another record none.
fn put_info(a: Answer, out: &mut [u64; 6])
    ensures { out.new ≡ array_of info_numbers a out.old }
{
    if let Ok(Record::Info(i)) = a {
        *out = [
            i.options as u64,
            i.rx_buf_max,
            i.rx_buf_size,
            i.rx_buf_available,
            i.tx_buf_max,
            i.tx_buf_size,
        ];
    }
}

// The numbers of a packet, put into the array; of another record none.
fn put_packet(a: Answer, out: &mut [u64; 5])
    ensures { out.new ≡ array_of packet_numbers a out.old }
{
    if let Ok(Record::Packet(k)) = a {
        *out = [
            k.key,
            k.trigger as u64,
            k.observed as u64,
            k.count,
            k.timestamp,
        ];
    }
}

// The thresholds of an end, put into the array.
pub fn thresholds(p: Pair, handle: u32, out: &mut [u64; 2]) -> Answer
    ensures { Recorded threshold_numbers (AsksThresholds p handle) out.old out.new (record { pair = p; answer = result }) }
{
    let a = SocketPair { inner: p }.get_rx_tx_threshold(handle).answer;
    put_thresholds(a, out);
    a
}

// The info of an end, put into the array.
pub fn info(p: Pair, handle: u32, table: &[u32], out: &mut [u64; 6]) -> Answer
    ensures { Recorded info_numbers (AsksInfo p handle table.now) out.old out.new (record { pair = p; answer = result }) }
{
    let a = SocketPair { inner: p }.get_info(handle, table).answer;
    put_info(a, out);
    a
}

// The answer to taking the oldest packet, and its packet put into the array.
pub fn take_answer(p: Pair, out: &mut [u64; 5]) -> Answer
    ensures { (result ≡ take_answer p) × (out.new ≡ array_of packet_numbers result out.old) }
{
    let a = socket::take_answer(p);
    put_packet(a, out);
    a
}

// The answer to a create, by the lengths of the rings and tables. They stand one by one, as `murgwethan_create` has them for C.
pub fn create_answer(
    kind: u32,
    capacity: u32,
    rights_one: u32,
    rights_two: u32,
    ring_one: &[u8],
    table_one: &[u32],
    ring_two: &[u8],
    table_two: &[u32],
) -> Answer
    ensures { result ≡ create_answer kind capacity rights_one rights_two (length ring_one.now) (length table_one.now) (length ring_two.now) (length table_two.now) }
{
    answers::create::create_answer(
        kind,
        capacity,
        rights_one,
        rights_two,
        ring_one.len(),
        table_one.len(),
        ring_two.len(),
        table_two.len(),
    )
}
