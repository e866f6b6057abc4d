// A frame with memory of its own for its information. A number that the kind lacks is 0.
use crate::{Block, Kind};

mod convert;

#[derive(Clone, Copy)]
pub struct FrameBuf {
    pub kind: Kind,
    pub ns: u8,
    pub nr: u8,
    pub b: u8,
    pub block: Block,
}
