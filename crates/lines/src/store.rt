// The entries of one way, oldest first, each in some form.
ghost use Rattle.std.specs.Prelude.{◌≡◌, ℕ, ◌≤◌, List, [], ◌∷◌, ◌++◌, map, length, drop, is_ok, if◌then◌else◌, nat_lt, slice_set};
ghost use Rattle.frames.specs.declared.way.Way.{Way as Ways};
ghost use Rattle.frames.specs.Parts.{given};
ghost use Rattle.frames.specs.Writer.{admit_answer};
ghost use Rattle.lines.specs.Entries.{frame as entry_frame, at};
ghost use Rattle.lines.specs.Line.{put_by, oldest, told, strike_by, hit_at, older};
ghost use Rattle.lines.specs.Stored.{struck_at, turned};

use crate::stored::Stored;
use crate::{LineRefusal, RingFull};
use frames::{Burst, FrameBuf, Parts, Way};

pub trait Store: Drop {
    type Item: Stored;

    // What it holds, oldest first.
    ghost items: { Self → List Self.Item };

    // For how many it has room.
    ghost places: { Self → ℕ };

    // What its memory holds behind its slots: no call touches it.
    ghost Rest: { Type 0 };

    ghost rest: { Self → Rest };

    // That places and rest stay is a clause of each call and no invariant: it speaks of before and after.

    // For how many entries it has room.
    fn room(&self) -> usize
        ensures { result ≡ places self.now };

    // How many entries it holds.
    fn count(&self) -> usize
        ensures { result ≡ length (items self.now) };

    // What stands at a place; place 0 is the oldest.
    fn get(&self, place: usize) -> Option<Self::Item>
        ensures { result ≡ at (items self.now) place };

    // Writes over a place that it holds.
    fn replace(&mut self, place: usize, new: Self::Item)
        ensures holds { items self.new ≡ slice_set (items self.old) place new }
        ensures places { places self.new ≡ places self.old }
        ensures rest { rest self.new ≡ rest self.old };

    // Adds one at the end, unless there is no room for it.
    fn push(&mut self, new: Self::Item) -> Result<(), RingFull>
        ensures fits { is_ok result ≡ nat_lt (length (items self.old)) (places self.old) }
        ensures holds { items self.new ≡ (if is_ok result then items self.old ++ new ∷ [] else items self.old) }
        ensures places { places self.new ≡ places self.old }
        ensures rest { rest self.new ≡ rest self.old };

    // Takes the oldest out.
    fn pop(&mut self) -> Option<Self::Item>
        ensures gives { result ≡ at (items self.old) 0 }
        ensures holds { items self.new ≡ drop 1 (items self.old) }
        ensures places { places self.new ≡ places self.old }
        ensures rest { rest self.new ≡ rest self.old };

    // It never holds more than it has room for.
    ghost within: { (s : Self) → length (items s) ≤ places s };

    // A frame joins the end.
    final fn put(&mut self, way: Way, frame: Parts<'_>) -> Result<(), LineRefusal>
        ensures answers { result ≡ put_by (admit_answer way (given frame.entry)) (nat_lt (length (items self.old)) (places self.old)) }
        ensures leaves { map (Self.Item.entry way) (items self.new) ≡ (if is_ok result then map (Self.Item.entry way) (items self.old) ++ entry_frame 0 (given frame.entry) ∷ [] else map (Self.Item.entry way) (items self.old)) }
        ensures places { places self.new ≡ places self.old }
        ensures rest { rest self.new ≡ rest self.old }
    {
        let new = <Self::Item as Stored>::pack(way, frame)?;
        self.push(new)?;
        Ok(())
    }

    // The oldest entry leaves: its frame, or damaged where it was struck.
    final fn take(&mut self, way: Way) -> Result<FrameBuf, LineRefusal>
        ensures answers { told result ≡ oldest (map (Self.Item.entry way) (items self.old)) }
        ensures leaves { items self.new ≡ drop 1 (items self.old) }
        ensures places { places self.new ≡ places self.old }
        ensures rest { rest self.new ≡ rest self.old }
    {
        let oldest = self.pop().ok_or(LineRefusal::Idle)?;
        oldest.unpack(way).ok_or(LineRefusal::Damaged)
    }

    // A burst strikes the entry at a place.
    #[tactic(auto, using(crate::proofs::Hits::hit_after, crate::proofs::Hits::struck_after))]
    final fn strike(&mut self, way: Way, place: usize, burst: Burst) -> Result<(), LineRefusal>
        ensures answers { result ≡ strike_by (at (map (Self.Item.entry way) (items self.old)) place) burst.start burst.mask }
        ensures leaves { map (Self.Item.entry way) (items self.new) ≡ (if is_ok result then hit_at place (map (Self.Item.entry way) (items self.old)) else map (Self.Item.entry way) (items self.old)) }
        ensures flips { items self.new ≡ (if is_ok result then struck_at (Self.Item.struck burst.start burst.mask) place (items self.old) else items self.old) }
        ensures places { places self.new ≡ places self.old }
        ensures rest { rest self.new ≡ rest self.old }
    {
        let mut target = self.get(place).ok_or(LineRefusal::NoEntry)?;
        target.strike(way, burst)?;
        self.replace(place, target);
        Ok(())
    }

    // The oldest entry's turn in a tick.
    final fn turn(&mut self, lifetime: u16)
        ensures leaves { (w : Ways) → map (Self.Item.entry w) (items self.new) ≡ turned lifetime (map (Self.Item.entry w) (items self.old)) }
        ensures places { places self.new ≡ places self.old }
        ensures rest { rest self.new ≡ rest self.old }
    {
        let Some(mut oldest) = self.pop() else {
            return;
        };
        let age = oldest.age();
        if age < lifetime {
            oldest.set_age(age + 1);
            let _fitted = self.push(oldest);
        }
    }

    // Every age rises by 1, then entries older than the lifetime leave: each entry has its turn.
    final fn tick(&mut self, lifetime: u16)
        ensures leaves { (w : Ways) → map (Self.Item.entry w) (items self.new) ≡ older lifetime (map (Self.Item.entry w) (items self.old)) }
        ensures places { places self.new ≡ places self.old }
        ensures rest { rest self.new ≡ rest self.old }
    {
        for _ in 0..self.count() {
            self.turn(lifetime);
        }
    }
}
