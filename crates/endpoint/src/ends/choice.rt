// One of two ends. It is chosen field by field: a choice of the whole record makes the compiler keep both in memory and copy them in parts that
// do not match the stores before, for which a processor waits.
ghost use Rattle.std.specs.Prelude.{◌≡◌};
ghost use Rattle.definition.specs.Status.{pick};

use crate::choice::pick;
use definition::{Endpoint, Queue, Span, Thresholds};

fn thresholds_if(test: bool, yes: Thresholds, no: Thresholds) -> Thresholds
    ensures { result ≡ pick test yes no }
{
    Thresholds {
        read: pick(test, yes.read, no.read),
        write: pick(test, yes.write, no.write),
    }
}

fn span_if(test: bool, yes: Span, no: Span) -> Span
    ensures { result ≡ pick test yes no }
{
    Span {
        start: pick(test, yes.start, no.start),
        count: pick(test, yes.count, no.count),
    }
}

// The first queue if the test holds, else the second.
pub fn queue_if(test: bool, yes: Queue, no: Queue) -> Queue
    ensures { result ≡ pick test yes no }
{
    let bytes = span_if(test, yes.bytes, no.bytes);
    let lengths = span_if(test, yes.lengths, no.lengths);
    Queue { bytes, lengths }
}

// The first end if the test holds, else the second.
pub fn end_if(test: bool, yes: Endpoint, no: Endpoint) -> Endpoint
    ensures { result ≡ pick test yes no }
{
    let thresholds = thresholds_if(test, yes.thresholds, no.thresholds);
    let queue = queue_if(test, yes.queue, no.queue);
    Endpoint {
        closed: pick(test, yes.closed, no.closed),
        read_disabled: pick(test, yes.read_disabled, no.read_disabled),
        rights: pick(test, yes.rights, no.rights),
        signals: pick(test, yes.signals, no.signals),
        thresholds,
        queue,
    }
}
