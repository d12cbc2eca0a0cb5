// The call that a record makes on the pair, on memory, and on the rings and tables of both ends.
ghost use Rattle.std.specs.Prelude.{◌≡◌, true, length};
ghost use Rattle.definition_script.specs.Call.{write_call, read_call, call_of};
ghost use Rattle.definition_script.specs.Record.{is_body};
ghost use Rattle.definition_script.specs.Tag.{tag_number};
ghost use Rattle.script_call.specs.call.CallDone.{CallDone};
ghost use Rattle.script_call.specs.call.CallMade.{CallMade};
ghost use Rattle.script_call.specs.Lent.{lent_rings, SameLent};

use crate::fill::{BASE, fill};
use crate::lent::Lent;
use crate::plain_call;
use crate::record::{fields, takes};
use definition::{Pair, Status, Step};
use definition_script::{Tag, TransferBody};
use user_answers::lookup::Buffer;

// Where the bytes and the count of a write or a read lie.
fn buffer_of(t: TransferBody) -> Buffer
    ensures { result ≡ record { base = BASE; address = t.address; count = t.count; count_at = t.count_at } }
{
    Buffer {
        base: BASE,
        address: t.address,
        count: t.count,
        count_at: t.count_at,
    }
}

// A write is lent the ring and the table of the peer. Each end has a call of its own: of a reference that is one of two, by the handle, a caller could not
// say what is left in either.
fn write(p: Pair, t: TransferBody, lent: &mut Lent) -> Step
    ensures same { SameLent lent.old lent.new }
    ensures made { CallDone (write_call lent.old.memory.now (lent_rings lent.old) p t) lent.new.memory.now (lent_rings lent.new) result }
{
    let memory = &mut *lent.memory;
    if t.handle == 1 {
        let ring = &mut *lent.ring_two;
        let table = &mut *lent.table_two;
        return syscall::write(p, t.handle, t.options, buffer_of(t), memory, ring, table);
    }
    let ring = &mut *lent.ring_one;
    let table = &mut *lent.table_one;
    syscall::write(p, t.handle, t.options, buffer_of(t), memory, ring, table)
}

// A read is lent the ring and the table of its own end. Its count does not land yet.
fn read(p: Pair, t: TransferBody, lent: &mut Lent) -> Step
    ensures same { SameLent lent.old lent.new }
    ensures made { CallDone (read_call lent.old.memory.now (lent_rings lent.old) p t) lent.new.memory.now (lent_rings lent.new) result }
{
    let memory = &mut *lent.memory;
    if t.handle == 1 {
        let ring = &mut *lent.ring_one;
        let table = &mut *lent.table_one;
        return syscall::read_bytes(p, t.handle, t.options, buffer_of(t), memory, ring, table);
    }
    let ring = &mut *lent.ring_two;
    let table = &mut *lent.table_two;
    syscall::read_bytes(p, t.handle, t.options, buffer_of(t), memory, ring, table)
}

// A fill is no call on the pair.
fn fill_step(p: Pair, body: &[u8], lent: &mut Lent) -> Step
    requires { is_body 11 (length body.now) ≡ true }
    ensures same { SameLent lent.old lent.new }
    ensures made { CallDone (call_of lent.old.memory.now (lent_rings lent.old) p 11 body.now) lent.new.memory.now (lent_rings lent.new) result }
{
    let memory = &mut *lent.memory;
    let answer = fill(memory, body);
    Step { pair: p, answer }
}

// By the tag, for which the body is right.
fn make(p: Pair, tag: Tag, body: &[u8], lent: &mut Lent) -> Step
    requires { is_body (tag_number tag) (length body.now) ≡ true }
    ensures same { SameLent lent.old lent.new }
    ensures made { CallDone (call_of lent.old.memory.now (lent_rings lent.old) p (tag_number tag) body.now) lent.new.memory.now (lent_rings lent.new) result }
{
    match tag {
        Tag::Create => plain_call::create(body, lent),
        Tag::Write => write(p, fields::transfer_at(body), lent),
        Tag::Read => read(p, fields::transfer_at(body), lent),
        Tag::SetDisposition => plain_call::set_disposition(p, body),
        Tag::Shutdown => plain_call::shutdown(p, body),
        Tag::SetReadThreshold => plain_call::set_read_threshold(p, body),
        Tag::SetWriteThreshold => plain_call::set_write_threshold(p, body),
        Tag::GetInfo => plain_call::get_info(p, body, lent),
        Tag::Close => plain_call::close(p, body),
        Tag::Wait => plain_call::wait(p, body),
        Tag::Take => plain_call::take(p),
        Tag::Fill => fill_step(p, body, lent),
        Tag::Cancel => plain_call::cancel(p, body),
    }
}

// By the tag, any number, since `is_last` and the other definitions speak of every one; the count of a read does not land yet. With a body that is not
// right for the tag no call is made.
pub fn call(p: Pair, tag: u8, body: &[u8], lent: &mut Lent) -> Step
    ensures same { SameLent lent.old lent.new }
    ensures made { CallMade lent.old.memory.now (lent_rings lent.old) p tag body.now lent.new.memory.now (lent_rings lent.new) result }
{
    match Tag::try_from(tag) {
        Ok(tag) if takes(tag, body.len()) => make(p, tag, body, lent),
        _ => Step {
            pair: p,
            answer: Err(Status::InvalidArgs),
        },
    }
}
