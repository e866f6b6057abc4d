// The control octet: what it says on its way, and what it is for each kind.
ghost use Rattle.std.specs.Prelude.{◌≡◌};
ghost use Rattle.frames.specs.Parts.{given, head_of};
ghost use Rattle.frames.specs.Control.{control_answer};
ghost use Rattle.frames.specs.Reader.{meant, said_answer};

use crate::{Frame, FrameRefusal, Kind, Parts, Way};

// The frame that a control octet and the information behind it make, or why they make none.
pub(crate) fn frame_of<'a>(way: Way, control: u8, info: &'a [u8]) -> Result<Frame<'a>, FrameRefusal>
    ensures { meant result ≡ said_answer way control info.now }
{
    let nr = control / 32;
    let b = control / 16 % 2;
    let low = control % 4;
    let frame = match control {
        0x00..=0xfe if low == 0 || low == 2 => {
            return Ok(Frame::I {
                ns: control / 2 % 8,
                nr,
                b,
                info,
            });
        }
        0x01..=0xf1 if low == 1 && control / 4 % 4 == 0 => Frame::Rr { nr, b },
        0x05..=0xf5 if low == 1 && control / 4 % 4 == 1 => Frame::Rnr { nr, b },
        0x1f if way == Way::One => Frame::Sarm,
        0x1f => Frame::Dm,
        0x53 if way == Way::One => Frame::Disc,
        0x73 if way == Way::Two => Frame::Ua,
        _ => return Err(FrameRefusal::Control),
    };
    if info.is_empty() {
        Ok(frame)
    } else {
        Err(FrameRefusal::Stray)
    }
}

// The control octet of a frame, where the way has its kind and the kind its numbers.
pub(crate) fn control_of(way: Way, frame: Parts<'_>) -> Option<u8>
    ensures { result ≡ control_answer way (head_of (given frame.entry)) }
{
    let Parts {
        kind,
        ns,
        nr,
        b,
        ..
    } = frame;
    let plain = ns == 0 && nr == 0 && b == 0;
    match (way, kind) {
        (_, Kind::I) if ns < 8 && nr < 8 && b < 2 => Some(nr * 32 + b * 16 + ns * 2),
        (_, Kind::Rr) if ns == 0 && nr < 8 && b < 2 => Some(nr * 32 + b * 16 + 1),
        (_, Kind::Rnr) if ns == 0 && nr < 8 && b < 2 => Some(nr * 32 + b * 16 + 5),
        (Way::One, Kind::Sarm) if plain => Some(0x1f),
        (Way::One, Kind::Disc) if plain => Some(0x53),
        (Way::Two, Kind::Ua) if plain => Some(0x73),
        (Way::Two, Kind::Dm) if plain => Some(0x1f),
        _ => None,
    }
}
