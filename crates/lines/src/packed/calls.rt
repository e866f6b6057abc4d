// What a line asks of an entry, of a packed record.
ghost use Rattle.std.specs.Prelude.{◌≡◌};
ghost use Rattle.lines.specs.Packed.{struck_octets, packed_entry};

use super::Packed;
use crate::LineRefusal;
use crate::stored::Stored;
use frames::{Burst, FrameBuf, FrameRefusal, Parts, Way, read, strike, write};

impl Stored for Packed {
    ghost entry = { packed_entry };

    ghost struck = { struck_octets };

    fn pack(way: Way, frame: Parts<'_>) -> Result<Packed, FrameRefusal> {
        let mut octets = [0; 72];
        let n = write(way, frame, &mut octets[3..71])?;
        octets[0] = n as u8;
        Ok(Packed { octets })
    }

    // The length's test and the read stand here and in `strike`: one call for both would be no plainer, since of what was read
    // each needs other facts.
    fn unpack(&self, way: Way) -> Option<FrameBuf> {
        let n = self.octets[0] as usize;
        if n > 68 {
            return None;
        }
        let Ok(frame) = read(way, &self.octets[3..3 + n]) else {
            return None;
        };
        FrameBuf::try_from(Parts::from(frame)).ok()
    }

    #[tactic(auto, using(crate::proofs::Packs::packed_age))]
    fn age(&self) -> u16 {
        u16::from_le_bytes([self.octets[1], self.octets[2]])
    }

    fn set_age(&mut self, age: u16) {
        let [low, high] = age.to_le_bytes();
        self.octets[1] = low;
        self.octets[2] = high;
    }

    fn strike(&mut self, way: Way, burst: Burst) -> Result<(), LineRefusal> {
        let n = self.octets[0] as usize;
        if n > 68 {
            return Err(LineRefusal::Struck);
        }
        let Ok(_) = read(way, &self.octets[3..3 + n]) else {
            return Err(LineRefusal::Struck);
        };
        if burst.mask == 0 {
            return Err(LineRefusal::NoMask);
        }
        if !strike(&mut self.octets[3..3 + n], burst) {
            return Err(LineRefusal::OffFrame);
        }
        Ok(())
    }
}
