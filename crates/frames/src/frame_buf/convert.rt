// Frames that own their information, made from their parts and lent as their parts.
ghost use Rattle.std.specs.Prelude.{◌≡◌};
ghost use Rattle.frames.specs.Parts.{given};
ghost use Rattle.frames.specs.Blocks.{parts_in, owned, owns};

use super::FrameBuf;
use crate::{Block, FrameRefusal, Parts};

// The parts of a frame, if its information is at most 64 octets; otherwise it is long.
impl TryFrom<Parts<'_>> for FrameBuf {
    type Error = FrameRefusal;

    ghost try_from_gives = { λ p r. owned r ≡ owns (given p) };

    fn try_from(frame: Parts<'_>) -> Result<FrameBuf, FrameRefusal> {
        Ok(FrameBuf {
            kind: frame.kind,
            ns: frame.ns,
            nr: frame.nr,
            b: frame.b,
            block: Block::of(frame.info).ok_or(FrameRefusal::Long)?,
        })
    }
}

impl<'a> From<&'a FrameBuf> for Parts<'a> {
    ghost from_gives = { λ f p. given p ≡ parts_in f.now };

    fn from(frame: &'a FrameBuf) -> Parts<'a> {
        Parts {
            kind: frame.kind,
            ns: frame.ns,
            nr: frame.nr,
            b: frame.b,
            info: frame.block.octets(),
        }
    }
}
