// The calls whose record goes to an array that the caller lends. A refused call leaves the array as it is.
ghost use Rattle.std.specs.Prelude.{◌≡◌, []};
ghost use Rattle.definition.specs.Info.{AsksInfo};
ghost use Rattle.definition.specs.Threshold.{AsksThresholds};
ghost use Rattle.definition.specs.Port.{Takes};
ghost use Rattle.definition_runs.specs.Exported.{Answered, threshold_numbers, info_numbers, packet_numbers, Recorded};

use definition::Pair;

// The read and the write threshold of an end.
pub fn murgwethan_thresholds(p: &mut Pair, handle: u32, out: &mut [u64; 2]) -> i64
    ensures { Answered (Recorded threshold_numbers (AsksThresholds p.old handle) out.old out.new) p.new result }
{
    let a = crate::values::thresholds(*p, handle, out);
    endpoint::answer::word(a)
}

// Options, capacity, queued, available, the peer's capacity and queued. The table is the own one; only datagram pairs look at it.
pub fn murgwethan_info(p: &mut Pair, handle: u32, table: &[u32], out: &mut [u64; 6]) -> i64
    ensures { Answered (Recorded info_numbers (AsksInfo p.old handle table.now) out.old out.new) p.new result }
{
    let a = crate::values::info(*p, handle, table, out);
    endpoint::answer::word(a)
}

// Takes the oldest packet: its key, trigger, observed word, count and timestamp.
pub fn murgwethan_take(p: &mut Pair, out: &mut [u64; 5]) -> i64
    ensures { Answered (Recorded packet_numbers (Takes p.old) out.old out.new) p.new result }
{
    let a = crate::values::take_answer(*p, out);
    kept::places::take(p, a)
}
