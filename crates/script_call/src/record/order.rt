// The order of records: create is first and only once, and a refused create ends the script.
ghost use Rattle.std.specs.Prelude.{◌≡◌};
ghost use Rattle.definition_script.specs.Record.{is_misplaced, is_last};

use definition::Answer;
use definition_script::Tag;

const CREATE: u8 = Tag::Create as u8;

// Whether a script ends with the record of this tag, whose call was answered so.
pub fn is_last(tag: u8, a: Answer) -> bool
    ensures { result ≡ is_last tag a }
{
    tag == CREATE && a.is_err()
}

// Whether the record of this tag is out of its place, where so many records came before it: a create behind a record, or another record before all.
#[tactic(auto, using(crate::proofs::record::Tags::out_of_place))]
pub fn is_misplaced(tag: u8, number: u64) -> bool
    ensures { result ≡ is_misplaced tag number }
{
    (tag == CREATE) != (number == 0)
}
