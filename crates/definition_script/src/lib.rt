// The records of a script: the call that each makes, what bytes begin with, the fields of a write or a read, where a script stands. What a record
// does and what a line shows is defined in specs/. There is no function here but the conversion of a number to a tag.
#![tactic(auto)]

ghost use Rattle.definition_script.specs.Tag.{Numbered};

use definition::Pair;

// Which call a record makes, with the number of each: the first byte of the record.
#[derive(Clone, Copy)]
pub enum Tag {
    Create = 0,
    Write = 1,
    Read = 2,
    SetDisposition = 3,
    Shutdown = 4,
    SetReadThreshold = 5,
    SetWriteThreshold = 6,
    GetInfo = 7,
    Close = 8,
    Wait = 9,
    Take = 10,
    Fill = 11,
    Cancel = 12,
}

// A number above 12, which stands for no call.
#[derive(Clone, Copy)]
pub struct UnknownTag(pub u8);

impl TryFrom<u8> for Tag {
    type Error = UnknownTag;

    ghost try_from_gives = { Numbered };

    fn try_from(number: u8) -> Result<Tag, UnknownTag> {
        match number {
            0 => Ok(Tag::Create),
            1 => Ok(Tag::Write),
            2 => Ok(Tag::Read),
            3 => Ok(Tag::SetDisposition),
            4 => Ok(Tag::Shutdown),
            5 => Ok(Tag::SetReadThreshold),
            6 => Ok(Tag::SetWriteThreshold),
            7 => Ok(Tag::GetInfo),
            8 => Ok(Tag::Close),
            9 => Ok(Tag::Wait),
            10 => Ok(Tag::Take),
            11 => Ok(Tag::Fill),
            12 => Ok(Tag::Cancel),
            _ => Err(UnknownTag(number)),
        }
    }
}

// The body of a write or a read.
#[derive(Clone, Copy)]
pub struct TransferBody {
    pub handle: u32,
    pub options: u32,
    pub address: u64,
    pub count: u64,
    pub count_at: u64,
}

// A record that is all there, with its tag and the length of its body; one that no further bytes make good; one that may be cut. Three named cases
// are plainer than a `Result`: neither a bad record nor a cut one is an error that a caller hands on, since one stops the script and the other waits
// for more bytes.
#[derive(Clone, Copy)]
pub enum Decoded {
    Whole(u8, usize),
    Bad,
    Cut,
}

// Where a script stands: the pair, how many records have been run, and whether the script has ended.
#[derive(Clone, Copy)]
pub struct ScriptState {
    pub pair: Pair,
    pub number: u64,
    pub ended: bool,
}
