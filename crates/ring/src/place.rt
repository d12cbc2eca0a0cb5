// Places in a ring of capacity C, which is the first C entries of a lent slice.
ghost use Rattle.std.specs.Prelude.{◌≡◌};
ghost use Rattle.definition.specs.Ring.{position};
ghost use Rattle.definition.specs.Ring;

// The place that is k entries past the place `start`, by comparison and subtraction.
pub fn place(capacity: usize, start: usize, k: usize) -> usize
    ensures { result ≡ position capacity start k }
{
    if capacity <= start {
        return k;
    }
    let room = capacity - start;
    if k < room { start + k } else { k - room }
}
