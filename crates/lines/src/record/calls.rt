// What a line asks of an entry, of a record.
ghost use Rattle.std.specs.Prelude.{◌≡◌};
ghost use Rattle.lines.specs.Record.{entry_of, struck_record};

use super::Record;
use crate::LineRefusal;
use crate::stored::Stored;
use frames::{Burst, FrameBuf, FrameRefusal, Parts, Way, admit};

impl Stored for Record {
    ghost entry = { λ w r. entry_of r };

    ghost struck = { λ start mask r. struck_record r };

    fn pack(way: Way, frame: Parts<'_>) -> Result<Record, FrameRefusal> {
        admit(way, frame)?;
        Ok(Record {
            age: 0,
            frame: Some(FrameBuf::try_from(frame)?),
        })
    }

    fn unpack(&self, way: Way) -> Option<FrameBuf> {
        self.frame
    }

    fn age(&self) -> u16 {
        self.age
    }

    fn set_age(&mut self, age: u16) {
        self.age = age;
    }

    fn strike(&mut self, way: Way, burst: Burst) -> Result<(), LineRefusal> {
        let frame = self.frame.ok_or(LineRefusal::Struck)?;
        if burst.mask == 0 {
            return Err(LineRefusal::NoMask);
        }
        let bits = 8 * (4 + frame.block.len());
        if burst.start > bits - 16 {
            return Err(LineRefusal::OffFrame);
        }
        self.frame = None;
        Ok(())
    }
}
