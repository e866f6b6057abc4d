// An entry in the form in which a store keeps it.
ghost use Rattle.std.specs.Prelude.{◌≡◌, ℕ, is_ok, if◌then◌else◌, Some};
ghost use Rattle.std.specs.Option.{option_map};
ghost use Rattle.frames.specs.declared.way.Way.{Way as Ways};
ghost use Rattle.frames.specs.Parts.{given};
ghost use Rattle.frames.specs.Blocks.{parts_in};
ghost use Rattle.lines.specs.Entries.{Entry};
ghost use Rattle.lines.specs.Line.{strike_by, hit};
ghost use Rattle.lines.specs.Stored.{age, aged, entry_told, Packs};

use crate::LineRefusal;
use frames::{Burst, FrameBuf, FrameRefusal, Parts, Way};

pub trait Stored: Copy {
    // The entry that it means on a way.
    ghost entry: { Ways → Self → Entry };

    // What a granted burst makes of it.
    ghost struck: { ℕ → ℕ → Self → Self };

    // A frame at age 0, or why the frame cannot be written.
    fn pack(way: Way, frame: Parts<'_>) -> Result<Self, FrameRefusal>
        ensures { Packs (entry way) way (given frame.entry) result };

    // Its frame, or none where it is struck.
    fn unpack(&self, way: Way) -> Option<FrameBuf>
        ensures { entry way self.now ≡ entry_told (age (entry way self.now)) (option_map parts_in result) };

    // Its age in ticks.
    fn age(&self) -> u16
        ensures { (w : Ways) → age (entry w self.now) ≡ result };

    // Gives it another age.
    fn set_age(&mut self, age: u16)
        ensures { (w : Ways) → entry w self.new ≡ aged age (entry w self.old) };

    // A burst strikes its frame.
    fn strike(&mut self, way: Way, burst: Burst) -> Result<(), LineRefusal>
        ensures answers { result ≡ strike_by (Some (entry way self.old)) burst.start burst.mask }
        ensures leaves { entry way self.new ≡ (if is_ok result then hit (entry way self.old) else entry way self.old) }
        ensures flips { self.new ≡ (if is_ok result then Self.struck burst.start burst.mask self.old else self.old) };
}
