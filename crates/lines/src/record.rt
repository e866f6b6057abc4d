// An entry of the table line: an age, and its frame or none where it was struck.
ghost use Rattle.std.specs.Prelude.{◌≡◌};
ghost use Rattle.lines.specs.Record.{blank_record};

use crate::Blank;
use frames::{Block, FrameBuf, Kind};

mod calls;

#[derive(Clone, Copy)]
pub struct Record {
    pub age: u16,
    pub frame: Option<FrameBuf>,
}

// What a slot that holds nothing has: an unstruck UA of age 0.
impl Blank for Record {
    ghost bare = { blank_record };

    fn blank() -> Record {
        // A literal, since it cannot fail as a conversion of parts can.
        let frame = FrameBuf {
            kind: Kind::Ua,
            ns: 0,
            nr: 0,
            b: 0,
            block: Block::empty(),
        };
        Record {
            age: 0,
            frame: Some(frame),
        }
    }
}
