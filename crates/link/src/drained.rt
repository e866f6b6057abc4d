// What a granted drain answers: the frames that it put and lost, its ticks and takes (those of struck entries too), and
// whether neither end then has a block outstanding. (A Result would be no plainer: the counts are told settled or not.)
ghost use Rattle.std.specs.Prelude.{◌≡◌, ◌≤◌};
ghost use Rattle.stations.specs.Answers.{FewFrames};
ghost use Rattle.link.specs.Drain.{counts_by, counted_call, total};
ghost use Rattle.link.specs.Plays.{meant};

use crate::{Call, LinkRefusal};
use stations::Counts;

#[derive(Clone, Copy, PartialEq, Eq, Debug, Default)]
pub struct Drained {
    pub counts: Counts,
    pub ticks: usize,
    pub takes: usize,
    pub settled: bool,
}

impl Drained {
    // One call more, which counts whatever it answered, and its frames. The limit is far above what twelve parts can count.
    pub(crate) fn note(&mut self, call: Call, answer: Result<Counts, LinkRefusal>)
        requires room { total self.old ≤ 1000000000 }
        requires frames { FewFrames (counts_by answer) }
        ensures { self.new ≡ counted_call (meant call) (counts_by answer) self.old }
    {
        self.counts = self.counts + answer.unwrap_or_default();
        match call {
            Call::Tick => self.ticks += 1,
            Call::Take(_) => self.takes += 1,
            _ => {}
        }
    }
}
