// User memory: the ranges of one lent slice at a 64-bit base, and the count that a call leaves there. After user_memory.rs.
ghost use Rattle.std.specs.Prelude.{◌≡◌};
ghost use Rattle.definition.specs.Memory.{fits, count_fits, is_null, count_put};
ghost use Rattle.definition.specs.Memory;

// Whether a range of n bytes lies in memory of `size` bytes. No sum is made, so none wraps.
pub fn fits(base: u64, size: usize, address: u64, n: u64) -> bool
    ensures { result ≡ fits base size address n }
{
    if n == 0 {
        return true;
    }
    if address < base {
        return false;
    }
    let from = address - base;
    from <= size as u64 && n <= size as u64 - from
}

// Whether the count's 8 bytes lie in memory; address 0 asks for no count. The address is a number, and no `Option`, since that is how a caller
// hands it over (`count_fits` of the definition).
pub fn count_fits(base: u64, size: usize, count_at: u64) -> bool
    ensures { result ≡ count_fits base size count_at }
{
    count_at == 0 || fits(base, size, count_at, 8)
}

// Address 0 with a count above 0.
pub fn is_null(address: u64, n: u64) -> bool
    ensures { result ≡ is_null address n }
{
    address == 0 && n != 0
}

// Lands a count as 8 bytes little-endian. Where its range does not fit, or its address is 0, memory stays as it is.
pub fn land_count(memory: &mut [u8], base: u64, count_at: u64, n: u32)
    ensures { memory.new ≡ count_put base count_at n memory.old }
{
    if count_at == 0 || !fits(base, memory.len(), count_at, 8) {
        return;
    }
    let at = (count_at - base) as usize;
    memory[at..at + 8].copy_from_slice(&(n as u64).to_le_bytes());
}
