// Every record and enum of the pair and its calls. There is no function here but the conversion of a number to a disposition: what the calls do is
// defined in specs/, one file for each paragraph or call of documents 01 and 02 (i), and the functions of the other crates are proved to do it.
#![tactic(auto)]

ghost use Rattle.std.specs.Prelude.{◌≡◌};
ghost use Rattle.definition.specs.Disposition.{numbered_disposition};

// Why a call is refused, with the number of each: the status is that number with a minus sign.
#[derive(Clone, Copy)]
pub enum Status {
    Internal = 1,
    NoResources = 3,
    InvalidArgs = 10,
    BadHandle = 11,
    OutOfRange = 14,
    BadState = 20,
    ShouldWait = 22,
    PeerClosed = 24,
    NotFound = 25,
    AccessDenied = 30,
}

// What a socket says of its queue and its peer's. The peer's numbers are 0 if it is closed.
#[repr(C)]
#[derive(Clone, Copy)]
pub struct SocketInfo {
    pub options: u32,
    pub rx_buf_max: u64,
    pub rx_buf_size: u64,
    pub rx_buf_available: u64,
    pub tx_buf_max: u64,
    pub tx_buf_size: u64,
}

// The read and the write threshold of an end; 0 is none.
#[repr(C)]
#[derive(Clone, Copy)]
pub struct Thresholds {
    pub read: u64,
    pub write: u64,
}

// What a wait leaves once its mask has met the word: the trigger is the mask.
#[repr(C)]
#[derive(Clone, Copy)]
pub struct PortPacket {
    pub key: u64,
    pub trigger: u32,
    pub observed: u32,
    pub count: u64,
    pub timestamp: u64,
}

// The record of a done call; `Empty` for a call that has none.
#[derive(Clone, Copy)]
pub enum Record {
    Empty,
    Count(u32),
    Info(SocketInfo),
    Limits(Thresholds),
    Packet(PortPacket),
}

// What a call answers: the record of a done call, or why it is refused.
pub type Answer = Result<Record, Status>;

// A queue's place in a ring: where it starts and how many entries it has.
#[repr(C)]
#[derive(Clone, Copy)]
pub struct Span {
    pub start: u32,
    pub count: u32,
}

// The queued bytes in the ring, and on datagram pairs their lengths in the table.
#[repr(C)]
#[derive(Clone, Copy)]
pub struct Queue {
    pub bytes: Span,
    pub lengths: Span,
}

// The order and the widths leave no gap, so that every byte of the record is one of a field, and a new end is stored where it stands.
#[repr(C)]
#[derive(Clone, Copy)]
pub struct Endpoint {
    pub closed: bool,
    pub read_disabled: bool,
    pub rights: u16,
    pub signals: u32,
    pub thresholds: Thresholds,
    pub queue: Queue,
}

// What an end shows: its signal word; none once it is closed.
pub type SignalWord = Option<u32>;

// What a disposition does to one end's writing. The Rust has an `Option<bool>`, whose three cases have names here.
#[derive(Clone, Copy)]
pub enum Disposition {
    Unchanged,
    Disable,
    Enable,
}

// By its number; one above 2 is refused.
#[tactic(auto, unfolding(crate::specs::Disposition::numbered_disposition, crate::specs::Disposition::disposition_of, crate::specs::Status::pick))]
impl TryFrom<u32> for Disposition {
    type Error = Status;

    ghost try_from_gives = { λ n r. r ≡ numbered_disposition n };

    fn try_from(n: u32) -> Result<Disposition, Status> {
        match n {
            0 => Ok(Disposition::Unchanged),
            1 => Ok(Disposition::Disable),
            2 => Ok(Disposition::Enable),
            _ => Err(Status::InvalidArgs),
        }
    }
}

// A wait or its packet. `observed` is the word at which the wait fired, and 0 until then.
// `end` is the number of the wait's end, 1 or 2, and 0 in a place that no wait has; its packet keeps it.
// It is as wide as the key so that a place has no padding: a new table is then one fill with zeros.
#[repr(C)]
#[derive(Clone, Copy)]
pub struct Place {
    pub key: u64,
    pub mask: u32,
    pub observed: u32,
    pub end: u64,
}

// The packets stand first, oldest first; behind them the waits, oldest first; the other places are unused.
#[repr(C)]
#[derive(Clone, Copy)]
pub struct Places {
    pub packets: usize,
    pub waits: usize,
    pub table: [Place; 128],
}

// The next table and the answer.
#[derive(Clone, Copy)]
pub struct Next {
    pub places: Places,
    pub answer: Answer,
}

// The next table, the next word and the answer.
#[derive(Clone, Copy)]
pub struct Change {
    pub places: Places,
    pub word: u32,
    pub answer: Answer,
}

// What every answer but those of take and cancel is made of. It is small, so that it is passed on at little cost.
#[derive(Clone, Copy)]
pub struct Ends {
    pub datagram: bool,
    pub capacity: u32,
    pub packets: usize,
    pub waits: usize,
    pub one: Endpoint,
    pub two: Endpoint,
}

// Both ends of a pair, and the places of its waits and packets. It holds no byte that was written.
// The two spare fields, of one and of two bytes, stand where the record would have a gap, so that every byte of it is one of a field. Create sets
// them to 0; no call looks at them, and every other call leaves them as they are.
#[repr(C)]
#[derive(Clone, Copy)]
pub struct Pair {
    pub one: Endpoint,
    pub two: Endpoint,
    pub datagram: bool,
    pub spare1: u8,
    pub spare2: u16,
    pub capacity: u32,
    pub places: Places,
}

// The next pair, and the answer.
#[derive(Clone, Copy)]
pub struct Step {
    pub pair: Pair,
    pub answer: Answer,
}
