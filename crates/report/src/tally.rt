// How many stored entries were run, how many of them agree, and which is the first that does not.
ghost use Rattle.std.specs.Prelude.{◌<◌, ◌≡◌};
ghost use Rattle.definition.specs.Status.{pick};
ghost use Rattle.report.specs.tally.Count.{is_full, missed_entry, counted_of};

// Why an entry does not agree: its listing first differs at a byte, or another line might not have fit behind it.
#[derive(Clone, Copy)]
pub enum Miss {
    DiffersAt(usize),
    NoRoom,
}

// What came of an entry: its listing agrees, or it misses.
pub type Comparison = Result<(), Miss>;

// An entry that does not agree: its number from 0, where its name begins and ends in the input, and why.
#[derive(Clone, Copy)]
pub struct MissedEntry {
    pub number: u64,
    pub from: usize,
    pub to: usize,
    pub miss: Miss,
}

// A tally with a count of 2^63 or above is full, and stays as it is; no input is so long.
const FULL: u64 = 1 << 63;

// How many entries were run, how many agree, and the first that does not.
#[derive(Clone, Copy, Default)]
pub struct Tally {
    pub total: u64,
    pub agree: u64,
    pub first: Option<MissedEntry>,
}

impl Tally {
    // An entry is counted that does not agree, whose name begins and ends at the two places.
    #[tactic(auto, unfolding(definition::specs::Status::pick, crate::specs::tally::Count::missed_entry))]
    fn missed(self, from: usize, to: usize, miss: Miss) -> Tally
        requires { self.total < 9223372036854775808 }
        ensures { result ≡ missed_entry self from to miss }
    {
        let first = if self.agree < self.total {
            self.first
        } else {
            Some(MissedEntry {
                number: self.total,
                from,
                to,
                miss,
            })
        };
        Tally {
            total: self.total + 1,
            first,
            ..self
        }
    }

    // One entry more is counted, whose name begins and ends at the two places. A full tally is left as it is.
    pub fn counted(self, from: usize, to: usize, o: Comparison) -> Tally
        ensures { result ≡ pick (is_full self) self (counted_of self from to o) }
    {
        if self.total >= FULL || self.agree >= FULL {
            return self;
        }
        match o {
            Ok(()) => Tally {
                total: self.total + 1,
                agree: self.agree + 1,
                ..self
            },
            Err(miss) => self.missed(from, to, miss),
        }
    }
}
