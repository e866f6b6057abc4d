// The engine: it opens a link, carries keys both ways over a line that is struck again and again, drains and closes.
use crate::generator::Generator;
use crate::said::Answer;
use crate::side::{Outcome, Side};
use crate::tally::Tally;
use frames::{Burst, Way};
use lines::Line;
use link::{End, Link, LinkRefusal};
use stations::{Counts, Mode};
use std::alloc::{AllocError, Global};
use std::fmt;

// A turn in so many is a drain.
const DRAIN: usize = 250;

// A connection ends at the latest after so many turns, and an opening or a closing after so many.
const TURNS: usize = 20000;

const SHORT: usize = 500;

// The keys that a connection carries more: from the older module, and from the newer.
#[derive(Clone, Copy)]
pub struct Plan {
    pub older: usize,
    pub newer: usize,
}

// The two modules. The older is the primary, the newer the secondary.
#[derive(Drop)]
pub struct Unit {
    older: Side,
    newer: Side,
    pub tally: Tally,
    dice: Generator,
}

// A connection: after how many ticks it was opened, settled and closed; what had come of each direction before it was
// closed; and whether it was opened, a drain answered settled while nothing waited, and it was closed.
#[derive(Clone, Copy)]
pub struct Connection {
    opened: usize,
    settled: usize,
    closed: usize,
    older: Outcome,
    newer: Outcome,
    // Beside the ticks, which are shown whether it was whole or not.
    pub whole: bool,
}

impl Unit {
    pub fn new(heap: Global) -> Result<Unit, AllocError> {
        Ok(Unit {
            older: Side::new(heap, End::Primary, 2026)?,
            newer: Side::new(heap, End::Secondary, 1979)?,
            tally: Tally::default(),
            dice: Generator::new(7),
        })
    }

    fn take<L: Line>(&mut self, link: &mut Link<L>, end: End) {
        if let Ok(taken) = link.take(end) {
            self.tally.frames(taken.counts);
        }
    }

    fn tick<L: Line>(&mut self, link: &mut Link<L>) {
        let granted = self.tally.granted(link.tick());
        self.tally.ticks += usize::from(granted);
    }

    fn poll<L: Line>(&mut self, link: &mut Link<L>) {
        let granted = self.tally.granted(link.poll());
        self.tally.polls += usize::from(granted);
    }

    // A burst at one of the first three entries of a way, somewhere in its first 32 bits.
    fn strike<L: Line>(&mut self, link: &mut Link<L>) {
        let way = if self.dice.below(2) == 0 {
            Way::One
        } else {
            Way::Two
        };
        let place = self.dice.below(3);
        let burst = Burst {
            start: self.dice.below(17),
            mask: self.dice.below(65535) as u16,
        };
        let answer = link.strike(way, place, burst);
        let granted = self.tally.granted(answer);
        self.tally.strikes += usize::from(granted);
    }

    // A drain, and whether neither end then has a block outstanding.
    fn drain<L: Line>(&mut self, link: &mut Link<L>) -> bool {
        let Ok(drained) = link.drain() else {
            return false;
        };
        self.tally.frames(drained.counts);
        self.tally.ticks += drained.ticks;
        self.tally.drains += 1;
        drained.settled
    }

    // One of 24 moves is drawn: a move comes as often as it has numbers. (A list of closures would be no plainer: all of
    // them would borrow this unit.)
    fn step<L: Line>(&mut self, link: &mut Link<L>) -> Result<(), AllocError> {
        match self.dice.below(24) {
            0..=3 => self.older.send(link, &mut self.tally)?,
            4..=5 => self.newer.send(link, &mut self.tally)?,
            6..=9 => self.take(link, End::Secondary),
            10..=13 => self.take(link, End::Primary),
            14..=15 => self.older.fetch(link),
            16 => self.newer.fetch(link),
            17..=19 => self.strike(link),
            20..=21 => self.tick(link),
            _ => self.poll(link),
        }
        Ok(())
    }

    // A call that asks for another mode. Then both ends take, and time passes, until the primary is in that mode; the line
    // is struck one turn in three.
    fn reach<L: Line>(
        &mut self,
        link: &mut Link<L>,
        asked: Result<Counts, LinkRefusal>,
        mode: Mode,
    ) -> bool {
        if !self.tally.granted(asked) {
            return false;
        }
        for _ in 0..SHORT {
            if link.primary_mode() == mode {
                return true;
            }
            if self.dice.below(3) == 0 {
                self.strike(link);
            }
            self.take(link, End::Secondary);
            self.take(link, End::Primary);
            self.tick(link);
        }
        false
    }

    // Carries keys until each of the plan was accepted and fetched.
    fn carry<L: Line>(&mut self, link: &mut Link<L>) -> Result<(), AllocError> {
        for turn in 1..TURNS {
            if self.carried() {
                break;
            }
            if turn % DRAIN == 0 {
                let _ = self.drain(link);
            } else {
                self.step(link)?;
            }
        }
        Ok(())
    }

    // Fetches all and drains, until a drain before which nothing waited answers settled, and nothing waits after it.
    fn settle<L: Line>(&mut self, link: &mut Link<L>) -> bool {
        for _ in 0..SHORT {
            self.older.fetch_all(link);
            self.newer.fetch_all(link);
            let settled = self.drain(link);
            if settled && link.waiting(End::Primary) == 0 && link.waiting(End::Secondary) == 0 {
                return true;
            }
        }
        false
    }

    // Whether every key of the plan was accepted and fetched, and is equal.
    pub fn carried(&self) -> bool {
        self.older.carried() && self.newer.carried()
    }

    // A whole connection, with the keys of a plan more. What has come of it is asked before it is closed.
    pub fn connect<L: Line>(
        &mut self,
        link: &mut Link<L>,
        plan: Plan,
    ) -> Result<Connection, AllocError> {
        self.older.plan(plan.older);
        self.newer.plan(plan.newer);
        let asked = link.open();
        let open = self.reach(link, asked, Mode::Open);
        let opened = self.tally.ticks.0;
        self.carry(link)?;
        let drained = self.settle(link);
        let settled = self.tally.ticks.0;
        let older = self.older.outcome(link);
        let newer = self.newer.outcome(link);
        let asked = link.close();
        let ended = self.reach(link, asked, Mode::Closed);
        Ok(Connection {
            opened,
            settled,
            closed: self.tally.ticks.0,
            older,
            newer,
            whole: open && drained && ended,
        })
    }
}

impl fmt::Display for Connection {
    fn fmt<W: fmt::Write>(&self, f: &mut fmt::Formatter<W>) -> fmt::Result {
        let Connection {
            opened,
            settled,
            closed,
            older,
            newer,
            whole,
        } = *self;
        let whole = Answer(whole);
        writeln!(
            f,
            "opened at tick {opened}, drained at tick {settled}, closed at tick {closed}"
        )?;
        writeln!(
            f,
            "  opened, settled while nothing waited, and closed: {whole}"
        )?;
        writeln!(f, "  older to newer so far: {older}")?;
        writeln!(f, "  newer to older so far: {newer}")
    }
}
