// Little-endian numbers of a body. What lies past its end reads as 0.
ghost use Rattle.std.specs.Prelude.{◌≤◌, ◌≡◌, get_or};
ghost use Rattle.definition_script.specs.Record.{two, four, eight, transfer_of};

use definition_script::TransferBody;

fn byte_at(s: &[u8], at: usize) -> u8
    ensures { result ≡ get_or s.now at 0 }
{
    if at < s.len() { s[at] } else { 0 }
}

// Numbers of one, two, four and eight bytes at a place, the lowest byte first.
pub fn u8_at(s: &[u8], at: u8) -> u8
    ensures { result ≡ get_or s.now at 0 }
{
    byte_at(s, at as usize)
}

pub fn u16_at(s: &[u8], at: u8) -> usize
    ensures { result ≡ two s.now at }
{
    let i = at as usize;
    u16::from_le_bytes([byte_at(s, i), byte_at(s, i + 1)]) as usize
}

pub fn u32_at(s: &[u8], at: u8) -> u32
    ensures { result ≡ four s.now at }
{
    let i = at as usize;
    u32::from_le_bytes([
        byte_at(s, i),
        byte_at(s, i + 1),
        byte_at(s, i + 2),
        byte_at(s, i + 3),
    ])
}

pub fn u64_at(s: &[u8], at: u8) -> u64
    ensures { result ≡ eight s.now at }
{
    let i = at as usize;
    u64::from_le_bytes([
        byte_at(s, i),
        byte_at(s, i + 1),
        byte_at(s, i + 2),
        byte_at(s, i + 3),
        byte_at(s, i + 4),
        byte_at(s, i + 5),
        byte_at(s, i + 6),
        byte_at(s, i + 7),
    ])
}

// The body of a write or a read.
pub fn transfer_at(body: &[u8]) -> TransferBody
    ensures { result ≡ transfer_of body.now }
{
    TransferBody {
        handle: u32_at(body, 0),
        options: u32_at(body, 4),
        address: u64_at(body, 8),
        count: u64_at(body, 16),
        count_at: u64_at(body, 24),
    }
}
