// A script is run wholly into a buffer.
ghost use Rattle.std.specs.Prelude.{◌≤◌, length};
ghost use Rattle.definition_script.specs.Listing.{start_state, start_machine};
ghost use Rattle.listing.specs.listing.Ran.{Ran, RanLent};
ghost use Rattle.script_call.specs.Lent.{SameLent, machine_with, lent_rings};

use script_call::lent::Lent;

// The header, the lines of the whole script as one block, and its end. Gives how many bytes were written.
fn run_on(script: &[u8], lent: &mut Lent, out: &mut [u8]) -> usize
    requires { length lent.old.memory.now ≤ 4096 }
    ensures same { SameLent lent.old lent.new }
    ensures text { Ran (machine_with start_state lent.old) script.now result out.old out.new }
    ensures left { RanLent (length out.old) (machine_with start_state lent.old) script.now lent.new.memory.now (lent_rings lent.new) }
{
    let n = crate::script::header(out);
    let f = feed::feed(feed::state::start(), 0, script, lent, &mut out[n..]);
    let at = n + f.written;
    let last = crate::script::finish(f.state, f.taken as u64, &script[f.taken..], &mut out[at..]);
    at + last
}

// Memory, rings and tables are made anew: all 0.
pub fn run_script(script: &[u8], out: &mut [u8]) -> usize
    ensures { Ran start_machine script.now result out.old out.new }
{
    let mut memory = [0u8; 4096];
    let mut ring_one = [0u8; 4096];
    let mut table_one = [0u32; 4096];
    let mut ring_two = [0u8; 4096];
    let mut table_two = [0u32; 4096];
    let mut lent = Lent {
        memory: &mut memory,
        ring_one: &mut ring_one,
        table_one: &mut table_one,
        ring_two: &mut ring_two,
        table_two: &mut table_two,
    };
    run_on(script, &mut lent, out)
}
