// A frame by its parts, as it is written or put on a line. A number that the kind lacks is 0.
ghost use Rattle.std.specs.Prelude.{◌≡◌, []};
ghost use Rattle.frames.specs.Parts.{parts, given, parts_of};

use crate::{Frame, FrameBuf, Kind};

#[derive(Clone, Copy, PartialEq, Eq, Debug)]
pub struct Parts<'a> {
    pub kind: Kind,
    pub ns: u8,
    pub nr: u8,
    pub b: u8,
    pub info: &'a [u8],
}

impl Parts<'_> {
    // A frame without numbers and information.
    pub fn plain(kind: Kind) -> Parts<'static>
        ensures { given result ≡ parts kind 0 0 0 [] }
    {
        Parts {
            kind,
            ns: 0,
            nr: 0,
            b: 0,
            info: &[],
        }
    }
}

// A frame that was read, by its parts.
impl<'a> From<Frame<'a>> for Parts<'a> {
    ghost from_gives = { λ f p. given p ≡ parts_of f };

    fn from(frame: Frame<'a>) -> Parts<'a> {
        match frame {
            Frame::I { ns, nr, b, info } => Parts {
                kind: Kind::I,
                ns,
                nr,
                b,
                info,
            },
            Frame::Rr { nr, b } => Parts {
                nr,
                b,
                ..Parts::plain(Kind::Rr)
            },
            Frame::Rnr { nr, b } => Parts {
                nr,
                b,
                ..Parts::plain(Kind::Rnr)
            },
            Frame::Sarm => Parts::plain(Kind::Sarm),
            Frame::Disc => Parts::plain(Kind::Disc),
            Frame::Ua => Parts::plain(Kind::Ua),
            Frame::Dm => Parts::plain(Kind::Dm),
        }
    }
}
