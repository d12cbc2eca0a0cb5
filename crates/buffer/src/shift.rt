// Bytes of a buffer go to its front.
ghost use Rattle.std.specs.Prelude.{◌≡◌};
ghost use Rattle.buffer.specs.shift.Shift.{shifted};

// Moves the bytes from one place to another to the front.
pub fn shift(buffer: &mut [u8], from: usize, to: usize)
    ensures { buffer.new ≡ shifted from to buffer.old }
{
    if from <= to && to <= buffer.len() {
        buffer.copy_within(from..to, 0);
    }
}
