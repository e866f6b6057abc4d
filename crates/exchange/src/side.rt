// One direction of the exchange: the keys that one end sends, and what is fetched of them at the other.
use crate::generator::Generator;
use crate::key::draw;
use crate::tally::Tally;
use lines::Line;
use link::{End, Link};
use std::alloc::{AllocError, Global};
use std::num::Saturating;
use std::{fmt, mem};

#[derive(Drop)]
pub struct Side {
    heap: Global,
    from: End,
    source: Generator,
    // The key that is sent next, again and again until it is accepted.
    next: Vec<u8>,
    // So many keys are to be accepted.
    planned: Saturating<usize>,
    // The keys whose sends were granted, in their order.
    accepted: Vec<Vec<u8>>,
    // The blocks that were fetched, and how many of them are what was accepted at that place, octet by octet.
    fetched: Saturating<usize>,
    equal: Saturating<usize>,
}

// What came of a direction.
#[derive(Clone, Copy)]
pub struct Outcome {
    accepted: usize,
    octets: Saturating<usize>,
    taken: Saturating<usize>,
    acknowledged: usize,
    fetched: Saturating<usize>,
    equal: Saturating<usize>,
}

fn far(end: End) -> End {
    match end {
        End::Primary => End::Secondary,
        End::Secondary => End::Primary,
    }
}

impl Side {
    pub fn new(heap: Global, from: End, seed: u32) -> Result<Side, AllocError> {
        let mut source = Generator::new(seed);
        let next = draw(heap, &mut source)?;
        Ok(Side {
            heap,
            from,
            source,
            next,
            planned: Saturating(0),
            accepted: Vec::new(heap),
            fetched: Saturating(0),
            equal: Saturating(0),
        })
    }

    // So many keys more are to be accepted.
    pub fn plan(&mut self, keys: usize) {
        self.planned += keys;
    }

    // Every key of the plan was accepted, and every accepted key was fetched and is equal.
    pub fn carried(&self) -> bool {
        let accepted = self.accepted.len();
        accepted == self.planned.0 && self.fetched.0 == accepted && self.equal.0 == accepted
    }

    // The next key was accepted.
    fn accept(&mut self) -> Result<(), AllocError> {
        let next = draw(self.heap, &mut self.source)?;
        let key = mem::replace(&mut self.next, next);
        self.accepted.push(key)?;
        Ok(())
    }

    // A block was fetched: is it the next of those that were accepted?
    fn compare(&mut self, block: &[u8]) {
        let same = self
            .accepted
            .get(self.fetched.0)
            .is_some_and(|key| key.as_slice() == block);
        self.fetched += 1;
        self.equal += usize::from(same);
    }

    // Sends the next key of the plan, if there is one.
    pub fn send<L: Line>(
        &mut self,
        link: &mut Link<L>,
        tally: &mut Tally,
    ) -> Result<(), AllocError> {
        if self.accepted.len() < self.planned.0
            && tally.granted(link.send(self.from, self.next.as_slice()))
        {
            self.accept()?;
        }
        Ok(())
    }

    // Fetches a block at the far end, if one waits there, and compares it with what was accepted.
    pub fn fetch<L: Line>(&mut self, link: &mut Link<L>) {
        let mut place = [0; 64];
        if let Ok(fetched) = link.fetch(far(self.from), &mut place) {
            self.compare(place.get(..fetched.length).unwrap_or(&place));
        }
    }

    // Fetches all that waits at the far end.
    pub fn fetch_all<L: Line>(&mut self, link: &mut Link<L>) {
        for _ in 0..link.waiting(far(self.from)) {
            self.fetch(link);
        }
    }

    // What has come of this direction; all that earlier connections accepted was acknowledged.
    pub fn outcome<L: Line>(&self, link: &Link<L>) -> Outcome {
        let accepted = self.accepted.len();
        Outcome {
            accepted,
            octets: self.accepted.iter().map(|key| Saturating(key.len())).sum(),
            taken: self.fetched + Saturating(link.waiting(far(self.from))),
            acknowledged: accepted.saturating_sub(link.outstanding(self.from)),
            fetched: self.fetched,
            equal: self.equal,
        }
    }
}

impl fmt::Display for Outcome {
    fn fmt<W: fmt::Write>(&self, f: &mut fmt::Formatter<W>) -> fmt::Result {
        let Outcome {
            accepted,
            octets,
            taken,
            acknowledged,
            fetched,
            equal,
        } = *self;
        write!(
            f,
            "{accepted} blocks accepted ({octets} octets), {taken} taken in, {acknowledged} acknowledged, {fetched} fetched, {equal} equal"
        )
    }
}
