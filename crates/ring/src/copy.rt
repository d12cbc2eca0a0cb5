// A ring of capacity C is the first C entries of a lent slice. A copy into it or out of it works on two parts: one from the ring's middle up
// to its end, and one from its start. In each the place is a running value, so that no remainder is taken at a byte.
ghost use Rattle.std.specs.Prelude.{◌≡◌, ◌+◌, ◌-◌, ◌≤◌, ◌<◌, min, length};
ghost use Rattle.std.proofs.Math.Seq.{paste};
ghost use Rattle.ring.specs.copy.Copies.{ring_fits, copied_in, copied_out};
ghost use Rattle.definition.specs.Ring.{put, front};

// The most bytes that one block copies.
const BLOCK: usize = 4096;

// Whether n entries from the place `at` on lie in a ring of this capacity, in a slice of `size` entries.
fn fits(capacity: usize, at: usize, n: usize, size: usize) -> bool
    ensures { result ≡ ring_fits capacity at n size }
{
    at < capacity && n <= capacity && capacity <= size
}

// Copies all of src, at most BLOCK bytes, to the start of dst. The bytes pass through a local array, which neither slice can overlap, so that
// the compiler makes one `memmove` of the two copies and drops the array. A loop from src to dst, which it must take for overlapping, stays a
// loop of 16-byte moves, at 4 KiB less than half as fast.
fn copy_block(dst: &mut [u8], src: &[u8])
    requires { (length src.now ≤ 4096) × (length src.now ≤ length dst.old) }
    ensures { dst.new ≡ paste dst.old 0 src.now (length src.now) }
{
    let n = src.len();
    let mut block = [0u8; BLOCK];
    block[..n].copy_from_slice(src);
    dst[..n].copy_from_slice(&block[..n]);
}

// Copies all of src to the start of dst, block by block.
fn copy(dst: &mut [u8], src: &[u8])
    requires { length src.now ≤ length dst.old }
    ensures { dst.new ≡ paste dst.old 0 src.now (length src.now) }
{
    for i in (0..src.len()).step_by(BLOCK) {
        let end = i + BLOCK.min(src.len() - i);
        copy_block(&mut dst[i..], &src[i..end]);
    }
}

// Puts src into the ring from the place `at` on: into the part up to the ring's end, then into the part from its start.
fn put(ring: &mut [u8], at: usize, src: &[u8])
    requires { (at < length ring.old) × (length src.now ≤ length ring.old) }
    ensures { ring.new ≡ put (length ring.old) at (length src.now) src.now ring.old }
{
    let first = src.len().min(ring.len() - at);
    copy(&mut ring[at..], &src[..first]);
    copy(ring, &src[first..]);
}

// Fills dst with the bytes from the place `start` on: those up to the ring's end, then those from its start.
fn get(ring: &[u8], start: usize, dst: &mut [u8])
    requires { (start < length ring.now) × (length dst.old ≤ length ring.now) }
    ensures { dst.new ≡ front (length ring.now) start (length dst.old) ring.now }
{
    let first = dst.len().min(ring.len() - start);
    let rest = dst.len() - first;
    copy(dst, &ring[start..start + first]);
    copy(&mut dst[first..], &ring[..rest]);
}

// Copies the first n bytes of src into the ring from the place `at` on. What does not fit is not copied.
// The slice, the capacity and the place come apart, as C passes them, and so in `copied_in` and `copied_out`, which ask nothing of them.
pub fn copy_in(ring: &mut [u8], capacity: usize, at: usize, src: &[u8], n: usize)
    ensures { ring.new ≡ copied_in capacity at n src.now ring.old }
{
    if fits(capacity, at, n, ring.len()) && n <= src.len() {
        put(&mut ring[..capacity], at, &src[..n]);
    }
}

// Copies the n bytes from the place `start` on to the start of dst. What does not fit is not copied.
pub fn copy_out(ring: &[u8], capacity: usize, start: usize, n: usize, dst: &mut [u8])
    ensures { dst.new ≡ copied_out capacity start n ring.now dst.old }
{
    if fits(capacity, start, n, ring.len()) && n <= dst.len() {
        get(&ring[..capacity], start, &mut dst[..n]);
    }
}
