// What comes before the first block of a script and behind its last: the header, the end of the input.
ghost use Rattle.std.specs.Prelude.{◌≡◌};
ghost use Rattle.text.specs.Put.{Written};
ghost use Rattle.definition_script.specs.Listing.{closing, header as Listing·header};
ghost use Rattle.listing.specs.script.Claims.{FeedingClaims};

use definition_script::ScriptState;
use text::Writer;

// The first line of every listing.
#[tactic(auto, unfolding(definition_script::specs::Listing::header))]
pub fn header(out: &mut [u8]) -> usize
    ensures { Written 22 0 Listing·header result out.old out.new }
{
    let mut to = Writer { out, at: 0 };
    to.copy(b"record word end1 end2\n");
    to.at
}

// The end of the input: bytes that are left are a record that is cut.
pub fn finish(st: ScriptState, offset: u64, left: &[u8], out: &mut [u8]) -> usize
    ensures { Written 26 0 (closing offset st.ended left.now) result out.old out.new }
{
    if left.is_empty() || st.ended {
        return 0;
    }
    let mut to = Writer { out, at: 0 };
    to.stop(offset);
    to.at
}

// Its contract is all that is claimed of feeding, so that to prove this crate is to prove every claim. It does nothing.
pub fn hold()
    ensures { FeedingClaims }
{}
