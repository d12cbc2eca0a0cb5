// One move of the machine that a script drives: a record is run and its line put out, or the script stops.
ghost use Rattle.std.specs.Prelude.{◌+◌, ◌≤◌, ◌≡◌, length, drop};
ghost use Rattle.definition_script.specs.Listing.{move_of};
ghost use Rattle.script_call.specs.Lent.{SameLent, machine_with, lent_rings};
ghost use Rattle.feed.specs.Turn.{LIMIT, next_of, StepMay, StepDone, StopDone, TurnMay, TurnDone};

use definition_script::{Decoded, ScriptState};
use script_call::lent::Lent;
use text::Writer;

// After a move: the state, the place in the input, and whether another move may follow, which `TurnDone` says of each move. All three are there after
// every move, so that no case has more or less than another.
#[derive(Clone, Copy)]
pub struct Turned {
    pub state: ScriptState,
    pub from: usize,
    pub more: bool,
}

// Runs a record and puts out its line.
fn step(st: ScriptState, tag: u8, body: &[u8], lent: &mut Lent, to: &mut Writer) -> ScriptState
    requires { StepMay st tag body.now lent.old.memory.now }
    ensures same { SameLent lent.old lent.new }
    ensures done { StepDone (machine_with st lent.old) tag body.now lent.new.memory.now (lent_rings lent.new) to.old to.new result }
{
    let r = script_call::call::call(st.pair, tag, body, lent);
    let memory = &mut *lent.memory;
    line::call_line::put(
        to, st.number, tag, body, r.answer, r.pair.one, r.pair.two, memory,
    );
    script_call::delivered::settle(tag, body, r.answer, memory);
    let number = st.number + 1;
    ScriptState {
        pair: r.pair,
        number,
        ended: script_call::record::is_last(tag, r.answer),
    }
}

// The line that stops the script.
fn stop(st: ScriptState, offset: u64, from: usize, to: &mut Writer) -> Turned
    requires { (offset ≤ LIMIT) × (from ≤ LIMIT) }
    ensures { StopDone st offset from to.old to.new result }
{
    to.stop(offset + from as u64);
    Turned {
        state: ScriptState { ended: true, ..st },
        from,
        more: false,
    }
}

// What the bytes of the input begin with from a place on, for which `next_of` keeps the three cases. A script that has ended waits as for a record that
// is cut, and a record out of its place is bad.
fn next(ended: bool, number: u64, input: &[u8], from: usize) -> Decoded
    requires { from ≤ length input.now }
    ensures { result ≡ next_of ended number (drop from input.now) }
{
    if ended {
        return Decoded::Cut;
    }
    match script_call::record::decode(&input[from..]) {
        Decoded::Cut => Decoded::Cut,
        Decoded::Bad => Decoded::Bad,
        Decoded::Whole(tag, _) if script_call::record::is_misplaced(tag, number) => Decoded::Bad,
        Decoded::Whole(tag, n) => Decoded::Whole(tag, n),
    }
}

// The move that the bytes of the input make from a place on.
pub(crate) fn turn(
    st: ScriptState,
    offset: u64,
    input: &[u8],
    from: usize,
    lent: &mut Lent,
    to: &mut Writer,
) -> Turned
    requires { TurnMay st offset input.now from lent.old.memory.now }
    ensures same { SameLent lent.old lent.new }
    ensures done { TurnDone (machine_with st lent.old) (move_of (machine_with st lent.old) (drop from input.now)) offset from lent.new.memory.now (lent_rings lent.new) to.old to.new result }
{
    match next(st.ended, st.number, input, from) {
        Decoded::Cut => Turned {
            state: st,
            from,
            more: false,
        },
        Decoded::Bad => stop(st, offset, from, to),
        Decoded::Whole(tag, n) => {
            let b = from + 3;
            let e = b + n;
            let state = step(st, tag, &input[b..e], lent, to);
            Turned {
                state,
                from: e,
                more: true,
            }
        }
    }
}
