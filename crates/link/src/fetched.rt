// What a granted fetch answers: no frames put or lost, and the block's length. (A length, and no slice of the place: the
// place is the caller's, and what stands behind the block is promised too.)
use stations::Counts;

#[derive(Clone, Copy, PartialEq, Eq, Debug)]
pub struct Fetched {
    pub counts: Counts,
    pub length: usize,
}
