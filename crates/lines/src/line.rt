// A line between two modules, known by its meaning alone: two lists of entries, one a way, oldest first.
ghost use Rattle.std.specs.Prelude.{◌≡◌, length};
ghost use Rattle.frames.specs.Parts.{given};
ghost use Rattle.lines.specs.Entries.{Lists, Bounded, on};
ghost use Rattle.lines.specs.Line.{put_answer, put_leaves, take_answer, take_leaves, told, strike_answer, strike_leaves, tick_leaves};

use crate::LineRefusal;
use frames::{Burst, FrameBuf, Parts, Way};

pub trait Line {
    // What the line holds.
    ghost meaning: { Self → Lists };

    // What its memory holds behind its slots: no call touches it.
    ghost Beyond: { Type 0 };

    ghost beyond: { Self → Beyond };

    // A frame joins the end of a way.
    fn put(&mut self, way: Way, frame: Parts<'_>) -> Result<(), LineRefusal>
        ensures answers { result ≡ put_answer (meaning self.old) way (given frame.entry) }
        ensures leaves { meaning self.new ≡ put_leaves (meaning self.old) way (given frame.entry) }
        ensures keeps { beyond self.new ≡ beyond self.old };

    // The oldest entry of a way leaves: its frame, or damaged where it was struck.
    fn take(&mut self, way: Way) -> Result<FrameBuf, LineRefusal>
        ensures answers { told result ≡ take_answer (meaning self.old) way }
        ensures leaves { meaning self.new ≡ take_leaves (meaning self.old) way }
        ensures keeps { beyond self.new ≡ beyond self.old };

    // A burst of up to sixteen bits strikes the entry at a place (0 is the oldest). Way and place stay two parameters: the way
    // picks the store, and the place goes on to it.
    fn strike(&mut self, way: Way, place: usize, burst: Burst) -> Result<(), LineRefusal>
        ensures answers { result ≡ strike_answer (meaning self.old) way place burst.start burst.mask }
        ensures leaves { meaning self.new ≡ strike_leaves (meaning self.old) way place burst.start burst.mask }
        ensures keeps { beyond self.new ≡ beyond self.old };

    // Every age rises by 1, then entries older than D leave.
    fn tick(&mut self)
        ensures leaves { meaning self.new ≡ tick_leaves (meaning self.old) }
        ensures keeps { beyond self.new ≡ beyond self.old };

    // How many entries a way holds. (The bounds are a clause of each question and no law: a proof would have to cite a law,
    // where a clause is at hand.)
    fn count(&self, way: Way) -> usize
        ensures answers { result ≡ length (on way (meaning self.now)) }
        ensures bounds { Bounded (meaning self.now) };

    // K: how many entries a way can hold.
    fn capacity(&self) -> usize
        ensures answers { result ≡ (meaning self.now).capacity }
        ensures bounds { Bounded (meaning self.now) };

    // D: for how many ticks the line holds an entry.
    fn lifetime(&self) -> usize
        ensures answers { result ≡ (meaning self.now).lifetime }
        ensures bounds { Bounded (meaning self.now) };
}
