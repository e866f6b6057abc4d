// Reading: octets to a frame, or a refusal.
ghost use Rattle.std.specs.Prelude.{◌≡◌};
ghost use Rattle.frames.specs.Reader.{meant, read_answer};
ghost use Rattle.frames.specs.Laws.{WritesBack};
ghost use Rattle.frames.specs.Facts.{ControlOctets};

use crate::control::frame_of;
use crate::fcs::checked;
use crate::{Frame, FrameRefusal, Way};

// The frame that octets hold on a way. The refusals are looked for in the order of their numbers.
pub fn read<'a>(way: Way, octets: &'a [u8]) -> Result<Frame<'a>, FrameRefusal>
    ensures answers { meant result ≡ read_answer way octets.now }
    ensures writes_back { WritesBack way octets.now (meant result) }
    ensures worked { ControlOctets }
{
    let [address, control, rest @ ..] = octets else {
        return Err(FrameRefusal::Short);
    };
    let [info @ .., _, _] = rest else {
        return Err(FrameRefusal::Short);
    };
    if octets.len() > 68 {
        return Err(FrameRefusal::Long);
    }
    if !checked(octets) {
        return Err(FrameRefusal::Check);
    }
    if *address != 0x01 {
        return Err(FrameRefusal::Address);
    }
    frame_of(way, *control, info)
}
