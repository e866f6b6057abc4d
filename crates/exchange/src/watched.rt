// A line that is watched: each call goes on to a line, and what it did there is noted. It means what that line means.
use crate::log::{Fate, Log};
use frames::{Burst, FrameBuf, Parts, Way};
use lines::{Line, LineRefusal};

#[derive(Drop)]
pub struct Watched<'a, L: Line> {
    line: L,
    log: &'a mut Log,
}

impl<'a, L: Line> Watched<'a, L> {
    pub fn new(line: L, log: &'a mut Log) -> Watched<'a, L> {
        Watched { line, log }
    }
}

impl<L: Line> Line for Watched<'_, L> {
    ghost meaning = { λ w. L.Line.meaning w.line };

    ghost Beyond = { L.Line.Beyond };

    ghost beyond = { λ w. L.Line.beyond w.line };

    fn put(&mut self, way: Way, frame: Parts<'_>) -> Result<(), LineRefusal> {
        let answer = self.line.put(way, frame);
        let fate = if answer.is_ok() {
            Fate::Stands
        } else {
            Fate::Lost
        };
        self.log.add(way, frame, fate);
        answer
    }

    fn take(&mut self, way: Way) -> Result<FrameBuf, LineRefusal> {
        self.log.remove(way, Fate::Taken);
        self.line.take(way)
    }

    fn strike(&mut self, way: Way, place: usize, burst: Burst) -> Result<(), LineRefusal> {
        let answer = self.line.strike(way, place, burst);
        if answer.is_ok() {
            self.log.strike(way, place);
        }
        answer
    }

    // Way by way, since a loop's invariant would have to say again what the line means.
    fn tick(&mut self) {
        let one = self.line.count(Way::One);
        let two = self.line.count(Way::Two);
        self.line.tick();
        let aged_one = one.saturating_sub(self.line.count(Way::One));
        let aged_two = two.saturating_sub(self.line.count(Way::Two));
        self.log.age(Way::One, aged_one);
        self.log.age(Way::Two, aged_two);
        self.log.pass();
    }

    fn count(&self, way: Way) -> usize {
        self.line.count(way)
    }

    fn capacity(&self) -> usize {
        self.line.capacity()
    }

    fn lifetime(&self) -> usize {
        self.line.lifetime()
    }
}
