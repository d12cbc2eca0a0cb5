// The ring's copies under the names that ring_copies_c exports, so that their time can be measured from Rust.
#![tactic(auto)]

ghost use Rattle.std.specs.Prelude.{◌≡◌};
ghost use Rattle.ring.specs.copy.Copies.{copied_in, copied_out};

pub fn ring_copies_in(ring: &mut [u8], capacity: usize, at: usize, src: &[u8], n: usize)
    ensures { ring.new ≡ copied_in capacity at n src.now ring.old }
{
    ring::copy::copy_in(ring, capacity, at, src, n);
}

pub fn ring_copies_out(ring: &[u8], capacity: usize, start: usize, n: usize, dst: &mut [u8])
    ensures { dst.new ≡ copied_out capacity start n ring.now dst.old }
{
    ring::copy::copy_out(ring, capacity, start, n, dst);
}
