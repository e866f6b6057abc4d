// The frames of the link as octets: their kinds, their check sequence, reading, writing and bit errors.
#![tactic(auto)]

mod bits;
mod block;
mod burst;
mod control;
mod fcs;
mod frame;
mod frame_buf;
mod kind;
mod parts;
mod reader;
mod refusal;
mod way;
mod writer;

pub use bits::strike;
pub use block::Block;
pub use burst::Burst;
pub use fcs::check_sequence;
pub use frame::Frame;
pub use frame_buf::FrameBuf;
pub use kind::Kind;
pub use parts::Parts;
pub use reader::read;
pub use refusal::FrameRefusal;
pub use way::Way;
pub use writer::{admit, write};
