// The line of the call that a record makes.
ghost use Rattle.definition.specs.Pair.{shown};
ghost use Rattle.line.specs.line.LineWritten.{LineWritten};
ghost use Rattle.definition_script.specs.Call.{delivered};

use definition::{Answer, Endpoint};
use script_call::record::fields;
use text::Writer;

// Puts out the line, before the count of a read lands.
pub fn put(
    to: &mut Writer,
    number: u64,
    tag: u8,
    body: &[u8],
    a: Answer,
    e: Endpoint,
    f: Endpoint,
    memory: &[u8],
)
    ensures { LineWritten number a (shown e) (shown f) (delivered tag body.now a memory.now) to.old to.new }
{
    let one = endpoint::end::shown(e);
    let two = endpoint::end::shown(f);
    let from = script_call::delivered::place_of(fields::u64_at(body, 8));
    let n = script_call::delivered::count(tag, a);
    let bytes = script_call::delivered::part(memory, from, n);
    crate::line::line(to, number, a, one, two, bytes);
}
