// A record of a script: what the bytes at hand begin with, the fields of its body, where a create may stand, and which record ends a script.
ghost use Rattle.std.specs.Prelude.{◌≡◌};
ghost use Rattle.definition_script.specs.Record.{is_body, record_of};
ghost use Rattle.definition_script.specs.Tag.{tag_number};

use definition_script::{Decoded, Tag};

pub mod fields;
mod order;

pub use order::{is_last, is_misplaced};

// Whether a body of n bytes is right for the tag.
#[tactic(auto, unfolding(definition_script::specs::Record::is_body, definition::specs::Status::pick))]
pub(crate) fn takes(tag: Tag, n: usize) -> bool
    ensures { result ≡ is_body (tag_number tag) n }
{
    match tag {
        Tag::Create => n == 10,
        Tag::Write | Tag::Read => n == 32,
        Tag::SetDisposition | Tag::SetReadThreshold | Tag::SetWriteThreshold | Tag::Cancel => {
            n == 12
        }
        Tag::Shutdown => n == 8,
        Tag::GetInfo | Tag::Close => n == 4,
        Tag::Wait => n == 17,
        Tag::Take => n == 0,
        Tag::Fill => n >= 9 && n <= 4104,
    }
}

// Whether a body of n bytes is right for the tag with this number.
pub fn is_body(tag: u8, n: usize) -> bool
    ensures { result ≡ is_body tag n }
{
    match Tag::try_from(tag) {
        Ok(tag) => takes(tag, n),
        Err(_) => false,
    }
}

// What the bytes at hand begin with.
pub fn decode(s: &[u8]) -> Decoded
    ensures { result ≡ record_of s.now }
{
    if s.len() < 3 {
        return Decoded::Cut;
    }
    let tag = s[0];
    let n = fields::u16_at(s, 1);
    if is_body(tag, n) {
        if s.len() - 3 < n {
            return Decoded::Cut;
        }
        Decoded::Whole(tag, n)
    } else {
        Decoded::Bad
    }
}
