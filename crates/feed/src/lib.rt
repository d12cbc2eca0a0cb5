// One block of a script is fed to the machine that it drives: the pair, memory, rings and tables.
#![tactic(auto)]

ghost use Rattle.std.specs.Prelude.{◌≡◌, true, length};
ghost use Rattle.script_call.specs.Lent.{SameLent, lent_rings};
ghost use Rattle.feed.specs.Feed.{is_ready, FeedDone};

use crate::turn::Turned;
use definition_script::ScriptState;
use script_call::lent::Lent;
use text::Writer;

pub mod state;
mod turn;

// After a block: the state, how many bytes of the input are done with, and how many of the output are written.
#[derive(Clone, Copy)]
pub struct Fed {
    pub state: ScriptState,
    pub taken: usize,
    pub written: usize,
}

// A quarter of what 64 bits count, so that sums of two such numbers fit.
const LIMIT: u64 = 4611686018427387904;

fn is_ready(st: ScriptState, offset: u64, input: usize, memory: usize) -> bool
    ensures { result ≡ is_ready st offset input memory }
{
    st.number <= LIMIT && offset <= LIMIT && input as u64 <= LIMIT && memory <= 4096
}

// Moves as long as there is one to make and room for its line, 8254 bytes. Each move says where the next begins, so that there is nothing to iterate over.
fn feed_ready(st: ScriptState, offset: u64, input: &[u8], lent: &mut Lent, out: &mut [u8]) -> Fed
    requires { is_ready st offset (length input.now) (length lent.old.memory.now) ≡ true }
    ensures same { SameLent lent.old lent.new }
    ensures done { FeedDone st offset input.now lent.old.memory.now lent.new.memory.now (lent_rings lent.old) (lent_rings lent.new) out.old out.new result }
{
    let mut to = Writer { out, at: 0 };
    let mut t = Turned {
        state: st,
        from: 0,
        more: true,
    };
    while t.more && to.has_room(8254) {
        t = turn::turn(t.state, offset, input, t.from, lent, &mut to);
    }
    Fed {
        state: t.state,
        taken: t.from,
        written: to.at,
    }
}

// Feeds a block before which `offset` bytes came. The caller puts out the text, and feeds again from the first byte that is not done with: at once
// if there was text, else with more bytes behind.
pub fn feed(st: ScriptState, offset: u64, input: &[u8], lent: &mut Lent, out: &mut [u8]) -> Fed
    ensures same { SameLent lent.old lent.new }
    ensures done { FeedDone st offset input.now lent.old.memory.now lent.new.memory.now (lent_rings lent.old) (lent_rings lent.new) out.old out.new result }
{
    if is_ready(st, offset, input.len(), lent.memory.len()) {
        return feed_ready(st, offset, input, lent, out);
    }
    Fed {
        state: st,
        taken: 0,
        written: 0,
    }
}
