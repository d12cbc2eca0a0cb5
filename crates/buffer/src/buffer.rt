// A script is read into a buffer and fed from its front.
ghost use Rattle.std.specs.Prelude.{◌≡◌, length};
ghost use Rattle.definition_script.specs.Listing.{start_state};
ghost use Rattle.buffer.specs.buffer.Buffer.{front_of, Advanced};
ghost use Rattle.script_call.specs.Lent.{SameLent, lent_rings};

use definition_script::ScriptState;
use script_call::lent::Lent;

// Where a script stands that is read into a buffer: the state, how many bytes came before the buffer, how many at its front are in use, and how many of
// the output are written. The buffer is lent beside it and of fixed size, as `front_of` and `Advanced` say.
#[derive(Clone, Copy)]
pub struct Progress {
    pub state: ScriptState,
    pub offset: u64,
    pub used: usize,
    pub written: usize,
}

// Nothing has been read.
pub fn first() -> Progress
    ensures { result ≡ record { state = start_state; offset = 0; used = 0; written = 0 } }
{
    Progress {
        state: feed::state::start(),
        offset: 0,
        used: 0,
        written: 0,
    }
}

// Feeds the bytes in use, moves those that are not done with to the front, and counts the others. A buffer that is shorter is left as it is.
pub fn advance(p: Progress, buffer: &mut [u8], lent: &mut Lent, out: &mut [u8]) -> Progress
    ensures same { SameLent lent.old lent.new }
    ensures done { Advanced (front_of p (length out.old) buffer.old lent.old.memory.now (lent_rings lent.old)) p buffer.old buffer.new lent.new.memory.now (lent_rings lent.new) out.old out.new result }
{
    if buffer.len() < p.used {
        return Progress { written: 0, ..p };
    }
    let f = feed::feed(p.state, p.offset, &buffer[..p.used], lent, out);
    crate::shift::shift(buffer, f.taken, p.used);
    let offset = p.offset + f.taken as u64;
    Progress {
        state: f.state,
        offset,
        used: p.used - f.taken,
        written: f.written,
    }
}
