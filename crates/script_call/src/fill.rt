// The record that fills memory: no call on the pair.
ghost use Rattle.std.specs.Prelude.{◌≤◌, ◌≡◌, length};
ghost use Rattle.definition_script.specs.Call.{fill_answer, filled};
ghost use Rattle.script_call.specs.fill.FillMade.{FillMade};

use crate::record::fields;
use definition::{Answer, Record, Status};
use definition_script::Tag;

// Where the memory begins.
pub const BASE: u64 = 65536;

// Puts bytes into memory where their range fits.
fn put(memory: &mut [u8], address: u64, bytes: &[u8]) -> Answer
    requires { (1 ≤ length bytes.now) × (length bytes.now ≤ 4096) }
    ensures { (result ≡ fill_answer (length memory.old) address (length bytes.now)) × (memory.new ≡ filled address bytes.now memory.old) }
{
    if address < BASE {
        return Err(Status::InvalidArgs);
    }
    let at = (address - BASE) as usize;
    let end = at + bytes.len();
    if end > memory.len() {
        return Err(Status::InvalidArgs);
    }
    memory[at..end].copy_from_slice(bytes);
    Ok(Record::Count(bytes.len() as u32))
}

// The bytes stand in the body behind their address. With a body that is not right for a fill nothing is put.
pub fn fill(memory: &mut [u8], body: &[u8]) -> Answer
    ensures { FillMade memory.old body.now memory.new result }
{
    if !crate::record::takes(Tag::Fill, body.len()) {
        return Err(Status::InvalidArgs);
    }
    let address = fields::u64_at(body, 0);
    put(memory, address, &body[8..])
}
