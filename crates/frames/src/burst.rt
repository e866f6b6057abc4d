// Bits to turn over: bit `start + i` for each bit `i` of the mask that is 1.
#[derive(Clone, Copy, PartialEq, Eq, Debug)]
pub struct Burst {
    pub start: usize,
    pub mask: u16,
}
