// Numbers and bytes as text, put into a lent slice at a place. Each public writer of a `Writer` moves the place behind its text; where the slice has no
// room for the most that the writer could put, it puts nothing and leaves the place.
#![tactic(auto)]

ghost use Rattle.std.specs.Prelude.{◌+◌, ◌*◌, ◌≤◌, ◌<◌, ◌≡◌, [], ◌∷◌, length};
ghost use Rattle.definition_script.specs.Call.{written_at};
ghost use Rattle.text.specs.Put.{Room};
ghost use Rattle.text.specs.Puts.{Puts, Appends};
ghost use Rattle.definition_script.specs.Line.{digit_of, digits_of, width_of, decimal_of, hex_of, hex_bytes_of, signed_of, word_of, stop_of};

use definition::Answer;

// Whether k bytes have room at a place of a slice that is so long.
pub fn has_room(len: usize, at: usize, k: usize) -> bool
    ensures { Room len at k result }
{
    k <= len && at <= len - k
}

#[tactic(auto, unfolding(definition::specs::Status::pick, definition_script::specs::Line::digit_of))]
fn digit(d: u64) -> u8
    requires { d < 16 }
    ensures { result ≡ digit_of d }
{
    if d < 10 {
        b'0' + d as u8
    } else {
        b'a' + (d - 10) as u8
    }
}

// How many decimal digits a number has, at most 20.
#[tactic(auto, using(crate::proofs::Spelling::width_power))]
fn width(n: u64) -> usize
    ensures { result ≡ width_of n }
{
    n.max(1).ilog10() as usize + 1
}

// Puts two digits for each byte. The slice and the place are no writer here, so that a turn tests no room and stores no place: over a writer's methods a
// byte takes twelve times as many instructions.
fn put_hex_bytes(out: &mut [u8], at: usize, src: &[u8])
    requires { at + 2 * length src.now ≤ length out.old }
    ensures { out.new ≡ written_at at (hex_bytes_of src.now) out.old }
{
    for i in 0..src.len() {
        let b = src[i] as u64;
        let to = at + 2 * i;
        out[to] = digit(b / 16);
        out[to + 1] = digit(b % 16);
    }
}

// A lent slice, and the place in it where the next text goes.
#[derive(Drop)]
pub struct Writer<'a> {
    pub out: &'a mut [u8],
    pub at: usize,
}

impl Writer<'_> {
    // Whether k bytes have room at the place.
    pub fn has_room(&self, k: usize) -> bool
        ensures { Room (length self.now.out.now) self.now.at k result }
    {
        has_room(self.out.len(), self.at, k)
    }

    pub fn byte(&mut self, b: u8)
        ensures { Puts 1 (b ∷ []) self.old self.new }
    {
        if self.has_room(1) {
            self.out[self.at] = b;
            self.at += 1;
        }
    }

    // Bytes as they are.
    pub fn copy(&mut self, src: &[u8])
        ensures { Puts (length src.now) src.now self.old self.new }
    {
        if self.has_room(src.len()) {
            let end = self.at + src.len();
            self.out[self.at..end].copy_from_slice(src);
            self.at = end;
        }
    }

    // The last k digits of a number in a base.
    fn digits(&mut self, base: u64, k: usize, n: u64)
        requires { (0 < base) × (base ≤ 16) }
        ensures { Puts k (digits_of base k n []) self.old self.new }
    {
        if self.has_room(k) {
            let mut rest = n;
            for i in (0..k).rev() {
                self.out[self.at + i] = digit(rest % base);
                rest /= base;
            }
            self.at += k;
        }
    }

    // A number in decimal. It asks for the room of the longest.
    pub fn decimal(&mut self, n: u64)
        ensures { Puts 20 (decimal_of n) self.old self.new }
    {
        if self.has_room(20) {
            self.digits(10, width(n), n);
        }
    }

    // The last k hexadecimal digits of a number, in lower case.
    #[tactic(auto, unfolding(definition_script::specs::Line::hex_of))]
    pub fn hex(&mut self, k: usize, n: u64)
        ensures { Puts k (hex_of k n) self.old self.new }
    {
        self.digits(16, k, n);
    }

    // Bytes, two hexadecimal digits each.
    pub fn hex_bytes(&mut self, src: &[u8])
        ensures { Puts (2 * length src.now) (hex_bytes_of src.now) self.old self.new }
    {
        if self.has_room(2 * src.len()) {
            put_hex_bytes(self.out, self.at, src);
            self.at += 2 * src.len();
        }
    }

    // A signed number in decimal.
    fn signed(&mut self, n: i64)
        ensures { Puts 21 (signed_of n) self.old self.new }
    {
        if self.has_room(21) {
            if n < 0 {
                self.byte(b'-');
            }
            self.decimal(n.unsigned_abs());
        }
    }

    // An answer's word: the count, or the status with its sign.
    #[tactic(auto, unfolding(definition_script::specs::Line::word_of))]
    pub fn word(&mut self, a: Answer)
        ensures { Puts 21 (word_of a) self.old self.new }
    {
        self.signed(endpoint::answer::word(a));
    }

    // The line that ends a script at a byte.
    pub fn stop(&mut self, n: u64)
        ensures { Puts 26 (stop_of n) self.old self.new }
    {
        if self.has_room(26) {
            self.copy(b"stop ");
            self.decimal(n);
            self.byte(b'\n');
        }
    }
}
