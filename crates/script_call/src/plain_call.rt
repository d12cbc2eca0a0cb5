// The call that a record makes where it changes neither memory nor a ring: every call but write, read and fill.
ghost use Rattle.std.specs.Prelude.{◌≡◌};
ghost use Rattle.definition_script.specs.Call.{rings, create_step, disposition_step, shutdown_step, read_threshold_step, write_threshold_step, info_step, close_step, wait_step, take_step, cancel_step, control_step};
ghost use Rattle.script_call.specs.Lent.{lent_rings};

use crate::lent::Lent;
use crate::record::fields;
use definition::{Pair, Step};
use socket::SocketPair;

// The rings and the tables come one by one, since `plain` is lent them so.
fn create_over(
    body: &[u8],
    ring_one: &[u8],
    table_one: &[u32],
    ring_two: &[u8],
    table_two: &[u32],
) -> Step
    ensures { result ≡ create_step (rings ring_one.now table_one.now ring_two.now table_two.now) body.now }
{
    let kind = fields::u32_at(body, 0);
    let capacity = fields::u32_at(body, 4);
    let one = fields::u8_at(body, 8) as u32;
    let two = fields::u8_at(body, 9) as u32;
    SocketPair::create(
        kind, capacity, one, two, ring_one, table_one, ring_two, table_two,
    )
    .into()
}

pub(crate) fn create(body: &[u8], lent: &Lent) -> Step
    ensures { result ≡ create_step (lent_rings lent.now) body.now }
{
    create_over(
        body,
        lent.ring_one,
        lent.table_one,
        lent.ring_two,
        lent.table_two,
    )
}

pub(crate) fn set_disposition(p: Pair, body: &[u8]) -> Step
    ensures { result ≡ disposition_step p body.now }
{
    let handle = fields::u32_at(body, 0);
    let own = fields::u32_at(body, 4);
    let peer = fields::u32_at(body, 8);
    syscall::set_disposition(p, handle, own, peer)
}

pub(crate) fn shutdown(p: Pair, body: &[u8]) -> Step
    ensures { result ≡ shutdown_step p body.now }
{
    let handle = fields::u32_at(body, 0);
    let options = fields::u32_at(body, 4);
    syscall::shutdown(p, handle, options)
}

pub(crate) fn set_read_threshold(p: Pair, body: &[u8]) -> Step
    ensures { result ≡ read_threshold_step p body.now }
{
    let handle = fields::u32_at(body, 0);
    let threshold = fields::u64_at(body, 4);
    let q = SocketPair { inner: p };
    q.set_read_threshold(handle, threshold).into()
}

pub(crate) fn set_write_threshold(p: Pair, body: &[u8]) -> Step
    ensures { result ≡ write_threshold_step p body.now }
{
    let handle = fields::u32_at(body, 0);
    let threshold = fields::u64_at(body, 4);
    let q = SocketPair { inner: p };
    q.set_write_threshold(handle, threshold).into()
}

// Info is lent the table of its own end.
fn info_over(
    p: Pair,
    body: &[u8],
    ring_one: &[u8],
    table_one: &[u32],
    ring_two: &[u8],
    table_two: &[u32],
) -> Step
    ensures { result ≡ info_step (rings ring_one.now table_one.now ring_two.now table_two.now) p body.now }
{
    let handle = fields::u32_at(body, 0);
    let table: &[u32] = match handle {
        1 => table_one,
        _ => table_two,
    };
    let q = SocketPair { inner: p };
    q.get_info(handle, table).into()
}

pub(crate) fn get_info(p: Pair, body: &[u8], lent: &Lent) -> Step
    ensures { result ≡ info_step (lent_rings lent.now) p body.now }
{
    info_over(
        p,
        body,
        lent.ring_one,
        lent.table_one,
        lent.ring_two,
        lent.table_two,
    )
}

pub(crate) fn close(p: Pair, body: &[u8]) -> Step
    ensures { result ≡ close_step p body.now }
{
    let handle = fields::u32_at(body, 0);
    let q = SocketPair { inner: p };
    q.close(handle).into()
}

pub(crate) fn wait(p: Pair, body: &[u8]) -> Step
    ensures { result ≡ wait_step p body.now }
{
    let handle = fields::u32_at(body, 0);
    let key = fields::u64_at(body, 4);
    let mask = fields::u32_at(body, 12);
    let edge = fields::u8_at(body, 16);
    let q = SocketPair { inner: p };
    q.wait(handle, key, mask, edge).into()
}

pub(crate) fn take(p: Pair) -> Step
    ensures { result ≡ take_step p }
{
    let q = SocketPair { inner: p };
    q.take().into()
}

pub(crate) fn cancel(p: Pair, body: &[u8]) -> Step
    ensures { result ≡ cancel_step p body.now }
{
    let handle = fields::u32_at(body, 0);
    let key = fields::u64_at(body, 4);
    let q = SocketPair { inner: p };
    q.cancel(handle, key).into()
}

// By the tag as a number, whatever the body: 0, 3 to 10, and 12. Tags 1 and 2 are taken as 3, 11 and those above 12 as 12. `call` does not go by it: for 1,
// 2 and 11 it writes, reads and fills, and above 12 and for a body that is not right it refuses.
pub fn plain(
    p: Pair,
    tag: u8,
    body: &[u8],
    ring_one: &[u8],
    table_one: &[u32],
    ring_two: &[u8],
    table_two: &[u32],
) -> Step
    ensures { result ≡ control_step (rings ring_one.now table_one.now ring_two.now table_two.now) p tag body.now }
{
    match tag {
        0 => create_over(body, ring_one, table_one, ring_two, table_two),
        1..=3 => set_disposition(p, body),
        4 => shutdown(p, body),
        5 => set_read_threshold(p, body),
        6 => set_write_threshold(p, body),
        7 => info_over(p, body, ring_one, table_one, ring_two, table_two),
        8 => close(p, body),
        9 => wait(p, body),
        10 => take(p),
        11..=255 => cancel(p, body),
    }
}
