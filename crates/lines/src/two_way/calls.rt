// The calls of a line of two stores. Stores that make no line, as those of the dead line, mean the dead line.
// The stores differ in their types, since their memories are lent for times of their own: so each call picks its store by a match.
ghost use Rattle.std.specs.Prelude.{◌≡◌, map, is_ok, if◌then◌else◌};
ghost use Rattle.frames.specs.declared.way.Way.TheVariants.{One, Two};
ghost use Rattle.lines.specs.Line.{strike_answer, strike_leaves};
ghost use Rattle.lines.specs.Stored.{fit, lists_by, struck_at};

use super::TwoWay;
use crate::store::Store;
use crate::{Line, LineRefusal, measures};
use frames::{Burst, FrameBuf, Parts, Way, admit};

impl<A: Store, B: Store> TwoWay<A, B> {
    // Whether the stores make a line that is not dead.
    fn sound(&self) -> bool
        ensures { result ≡ fit (A.places self.now.one) (B.places self.now.two) self.now.lifetime }
    {
        measures::fits(self.one.room(), self.two.room(), self.lifetime)
    }
}

impl<A: Store, B: Store> Line for TwoWay<A, B> {
    ghost meaning = { λ t. lists_by (B.places t.two) (record { one = map (A.Item.entry One) (A.items t.one); two = map (B.Item.entry Two) (B.items t.two); capacity = A.places t.one; lifetime = t.lifetime }) };

    ghost Beyond = { A.Rest × B.Rest };

    ghost beyond = { λ t. (A.rest t.one, B.rest t.two) };

    // Put and take are inlined: a caller knows most of what it puts and asks.
    #[inline(always)]
    fn put(&mut self, way: Way, frame: Parts<'_>) -> Result<(), LineRefusal> {
        if !self.sound() {
            admit(way, frame)?;
            return Err(LineRefusal::Full);
        }
        match way {
            Way::One => self.one.put(Way::One, frame),
            Way::Two => self.two.put(Way::Two, frame),
        }
    }

    #[inline(always)]
    #[tactic(auto, using(crate::proofs::Stores::takes))]
    fn take(&mut self, way: Way) -> Result<FrameBuf, LineRefusal> {
        if !self.sound() {
            return Err(LineRefusal::Idle);
        }
        match way {
            Way::One => self.one.take(Way::One),
            Way::Two => self.two.take(Way::Two),
        }
    }

    // Besides what every line promises: a granted burst makes of what stands at the place what the form says, and all
    // else on the way stays. On the octet line it turns over frame bit `start + i` for each bit `i` of the mask that is 1.
    #[tactic(auto, using(crate::proofs::Stores::strikes))]
    fn strike(&mut self, way: Way, place: usize, burst: Burst) -> Result<(), LineRefusal>
        ensures answers { result ≡ strike_answer (⟦<TwoWay<A, B> as Line>⟧.meaning self.old) way place burst.start burst.mask }
        ensures leaves { ⟦<TwoWay<A, B> as Line>⟧.meaning self.new ≡ strike_leaves (⟦<TwoWay<A, B> as Line>⟧.meaning self.old) way place burst.start burst.mask }
        ensures keeps { ⟦<TwoWay<A, B> as Line>⟧.beyond self.new ≡ ⟦<TwoWay<A, B> as Line>⟧.beyond self.old }
        ensures flips_one { way ≡ One → A.items self.new.one ≡ (if is_ok result then struck_at (A.Item.struck burst.start burst.mask) place (A.items self.old.one) else A.items self.old.one) }
        ensures flips_two { way ≡ Two → B.items self.new.two ≡ (if is_ok result then struck_at (B.Item.struck burst.start burst.mask) place (B.items self.old.two) else B.items self.old.two) }
    {
        if !self.sound() {
            return Err(LineRefusal::NoEntry);
        }
        match way {
            Way::One => self.one.strike(Way::One, place, burst),
            Way::Two => self.two.strike(Way::Two, place, burst),
        }
    }

    fn tick(&mut self) {
        self.one.tick(self.lifetime);
        self.two.tick(self.lifetime);
    }

    #[tactic(auto, using(crate::proofs::Stores::counts))]
    fn count(&self, way: Way) -> usize {
        if !self.sound() {
            return 0;
        }
        match way {
            Way::One => self.one.count(),
            Way::Two => self.two.count(),
        }
    }

    #[tactic(auto, using(crate::proofs::Stores::measures))]
    fn capacity(&self) -> usize {
        if self.sound() { self.one.room() } else { 0 }
    }

    #[tactic(auto, using(crate::proofs::Stores::measures))]
    fn lifetime(&self) -> usize {
        if self.sound() {
            self.lifetime as usize
        } else {
            1
        }
    }
}
