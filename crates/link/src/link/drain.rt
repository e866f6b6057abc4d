// Draining a link: takes, ticks and polls until nothing is on its way.
ghost use Rattle.std.specs.Prelude.{◌≡◌, ◌+◌, ◌*◌, ◌≤◌, replicate};
ghost use Rattle.link.specs.Drain.{drain_parts, drain_answer, drain_calls, drained, walk, part_calls, counted_all, settled_at, total};
ghost use Rattle.link.specs.History.{run};
ghost use Rattle.link.specs.DrainFacts.{WorkedDrain};
ghost use Rattle.link.specs.Plays.{meant};
ghost use Rattle.link.specs.Views.{model};

use super::Link;
use crate::part::Part;
use crate::{Call, Drained, End, LinkRefusal};
use lines::Line;
use stations::{Mode, StationRefusal};

// Pass at primary, secondary, primary, secondary; ask; pass at secondary, primary, secondary; poll; pass at secondary,
// primary, secondary.
fn drain_parts() -> [Part; 12]
    ensures { result ≡ drain_parts }
{
    let p = Part::Pass(End::Primary);
    let s = Part::Pass(End::Secondary);
    [p, s, p, s, Part::Ask, s, p, s, Part::Poll, s, p, s]
}

impl<L: Line> Link<L> {
    // The call that a part of a drain makes, and how often. A pass takes once for each entry of the incoming way: nothing
    // that it puts comes there.
    fn calls_of(&self, part: Part) -> (usize, Call)
        ensures calls { replicate result.0 (meant result.1) ≡ part_calls part (model L.Line.meaning self.now) }
        ensures few { result.0 ≤ 10000 }
    {
        match part {
            Part::Pass(end) => (self.line.count(end.incoming()), Call::Take(end)),
            Part::Ask => match self.primary.timer() {
                Some(n) => (self.limit.min(10000).saturating_sub(n), Call::Tick),
                None => (1, Call::Poll),
            },
            Part::Poll => (1, Call::Poll),
        }
    }

    // A call again and again. Each counts at most 8 frames put, 8 lost, and one tick or take.
    fn repeat(&mut self, n: usize, call: Call, done: &mut Drained)
        requires room { total done.old + 17 * n ≤ 1000000000 }
        ensures leaves { model L.Line.meaning self.new ≡ run (model L.Line.meaning self.old) (replicate n (meant call)) }
        ensures counts { done.new ≡ counted_all (model L.Line.meaning self.old) (replicate n (meant call)) done.old }
        ensures few { total done.new ≤ total done.old + 17 * n }
        ensures keeps { L.Line.beyond self.new.line ≡ L.Line.beyond self.old.line }
    {
        for _i in 0..n {
            let answer = self.obey(call);
            done.note(call, answer);
        }
    }

    // Whether neither end has a block outstanding.
    fn settled(&self) -> bool
        ensures { result ≡ settled_at (model L.Line.meaning self.now).now }
    {
        self.primary.outstanding() == 0 && self.secondary.outstanding() == 0
    }

    // The walk of an open primary.
    fn drain_open(&mut self) -> Drained
        ensures answers { result ≡ drained (model L.Line.meaning self.old) (walk drain_parts (model L.Line.meaning self.old)) }
        ensures leaves { model L.Line.meaning self.new ≡ run (model L.Line.meaning self.old) (walk drain_parts (model L.Line.meaning self.old)) }
        ensures keeps { L.Line.beyond self.new.line ≡ L.Line.beyond self.old.line }
    {
        let mut done = Drained::default();
        let parts = drain_parts();
        for part in &parts {
            let (n, call) = self.calls_of(*part);
            self.repeat(n, call, &mut done);
        }
        done.settled = self.settled();
        done
    }

    // Primary open: the walk of passes, a poll or the wait until it is sent again, passes, a poll and passes. On a sound
    // link it leaves both ways empty; where nothing waits at either end, all that was accepted is then acknowledged.
    pub fn drain(&mut self) -> Result<Drained, LinkRefusal>
        ensures answers { result ≡ drain_answer (model L.Line.meaning self.old) }
        ensures worked { WorkedDrain }
        ensures leaves { model L.Line.meaning self.new ≡ run (model L.Line.meaning self.old) (drain_calls (model L.Line.meaning self.old)) }
        ensures keeps { L.Line.beyond self.new.line ≡ L.Line.beyond self.old.line }
    {
        self.checked?;
        if self.primary.mode() != Mode::Open {
            return Err(StationRefusal::Mode.into());
        }
        Ok(self.drain_open())
    }
}
