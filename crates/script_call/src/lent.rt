// What the program lends to the calls of a script.

// Memory, and the ring and the table of each end. A script finds its bytes there, and leaves them there.
#[derive(Drop)]
pub struct Lent<'a> {
    pub memory: &'a mut [u8],
    pub ring_one: &'a mut [u8],
    pub table_one: &'a mut [u32],
    pub ring_two: &'a mut [u8],
    pub table_two: &'a mut [u32],
}
