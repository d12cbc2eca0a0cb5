// The bytes that a read of a script delivered, and its count, which lands in memory once its line is put out.
ghost use Rattle.std.specs.Prelude.{◌-◌, ◌≡◌, take, drop};
ghost use Rattle.definition_script.specs.Call.{BASE, delivered_count, after_count};

use crate::fill::BASE;
use crate::record::fields;
use definition::Answer;
use definition_script::Tag;

const READ: u8 = Tag::Read as u8;

// How far an address lies past the start of memory, 0 before it.
pub fn place_of(address: u64) -> usize
    ensures { result ≡ address - BASE }
{
    address.saturating_sub(BASE) as usize
}

// The n bytes from a place on, or those that there are.
pub fn part(memory: &[u8], from: usize, n: usize) -> &[u8]
    ensures { result.now ≡ take n (drop from memory.now) }
{
    let size = memory.len();
    if size < from {
        return &memory[0..0];
    }
    if size - from < n {
        return &memory[from..size];
    }
    let to = from + n;
    &memory[from..to]
}

// How many bytes a call delivered.
#[tactic(auto, unfolding(definition_script::specs::Call::delivered_count, definition::specs::Status::pick))]
pub fn count(tag: u8, a: Answer) -> usize
    ensures { result ≡ delivered_count tag a }
{
    if tag == READ {
        return endpoint::answer::count_of(a) as usize;
    }
    0
}

// The count of a done read lands, behind its call.
#[tactic(auto, unfolding(definition_script::specs::Call::after_count, definition::specs::Status::pick, definition::specs::Status::is_done))]
pub fn settle(tag: u8, body: &[u8], a: Answer, memory: &mut [u8])
    ensures { memory.new ≡ after_count tag body.now a memory.old }
{
    if tag == READ && a.is_ok() {
        let count_at = fields::u64_at(body, 24);
        user_answers::memory::land_count(memory, BASE, count_at, endpoint::answer::count_of(a));
    }
}
