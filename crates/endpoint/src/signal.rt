// The signal word of an end: its bits, and one change of it. After object/signal.rs.
ghost use Rattle.std.specs.Prelude.{◌≡◌};
ghost use Rattle.definition.specs.Signal.{changed_word};

// The signals of a socket, by the bits of the public header.
pub const READABLE: u32 = 0x1;

pub const WRITABLE: u32 = 0x2;

pub const PEER_CLOSED: u32 = 0x4;

pub const PEER_WRITE_DISABLED: u32 = 0x10;

pub const WRITE_DISABLED: u32 = 0x20;

pub const READ_THRESHOLD: u32 = 0x400;

pub const WRITE_THRESHOLD: u32 = 0x800;

// The word after a change: first `clear`, then `set`.
pub fn changed(word: u32, clear: u32, set: u32) -> u32
    ensures { result ≡ changed_word clear set word }
{
    word & !clear | set
}
