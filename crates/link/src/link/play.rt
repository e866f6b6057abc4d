// Lists of calls, and the promise over every history.
ghost use Rattle.std.specs.Prelude.{◌≡◌, map};
ghost use Rattle.stations.specs.Answers.{FewFrames};
ghost use Rattle.link.specs.Drain.{counts_by, frames_of};
ghost use Rattle.link.specs.Facts.{WorkedHistories};
ghost use Rattle.link.specs.History.{run, step};
ghost use Rattle.link.specs.Plays.{meant};
ghost use Rattle.link.specs.Promise.{Lasting};
ghost use Rattle.link.specs.Views.{model};

use super::Link;
use crate::{Call, LinkRefusal};
use lines::Line;
use stations::Counts;

impl<L: Line> Link<L> {
    // One call, and of its answer the refusal or the frames. Inlined, so that a call is not copied on its way.
    #[inline(always)]
    pub(super) fn obey(&mut self, call: Call) -> Result<Counts, LinkRefusal>
        ensures frames { counts_by result ≡ frames_of (meant call) (model L.Line.meaning self.old) }
        ensures few { FewFrames (counts_by result) }
        ensures leaves { model L.Line.meaning self.new ≡ step (model L.Line.meaning self.old) (meant call) }
        ensures keeps { L.Line.beyond self.new.line ≡ L.Line.beyond self.old.line }
    {
        match call {
            Call::Open => self.open(),
            Call::Close => self.close(),
            Call::Poll => self.poll(),
            Call::Tick => self.tick(),
            Call::Send(end, block) => self.send(end, block.octets()),
            Call::Take(end) => Ok(self.take(end)?.counts),
            Call::Fetch(end) => Ok(self.fetch(end, &mut [0; 64])?.counts),
            Call::Strike(way, place, burst) => self.strike(way, place, burst),
        }
    }

    // A list of calls, one after the other, refused ones too. The link then stands where the history leads; and
    // whatever sound link and history it came from, the promise holds of the whole history.
    pub fn play(&mut self, calls: &[Call])
        ensures runs { model L.Line.meaning self.new ≡ run (model L.Line.meaning self.old) (map meant calls.now) }
        ensures law { Lasting (model L.Line.meaning self.old) (map meant calls.now) (model L.Line.meaning self.new) }
        ensures worked { WorkedHistories }
        ensures keeps { L.Line.beyond self.new.line ≡ L.Line.beyond self.old.line }
    {
        for call in calls {
            let _ = self.obey(*call);
        }
    }
}
