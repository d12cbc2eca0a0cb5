// The static library of the ring's copies: the functions of ring_copies, exported under their names to C and Rust. A slice passes as its pointer and
// its length.
#![tactic(auto)]

ghost use Rattle.std.specs.Prelude.{◌≡◌};
ghost use Rattle.ring.specs.copy.Copies.{copied_in, copied_out};

#[unsafe(no_mangle)]
pub extern "C" fn ring_copies_in(ring: &mut [u8], capacity: usize, at: usize, src: &[u8], n: usize)
    ensures { ring.new ≡ copied_in capacity at n src.now ring.old }
{
    ring_copies::ring_copies_in(ring, capacity, at, src, n);
}

#[unsafe(no_mangle)]
pub extern "C" fn ring_copies_out(
    ring: &[u8],
    capacity: usize,
    start: usize,
    n: usize,
    dst: &mut [u8],
)
    ensures { dst.new ≡ copied_out capacity start n ring.now dst.old }
{
    ring_copies::ring_copies_out(ring, capacity, start, n, dst);
}
