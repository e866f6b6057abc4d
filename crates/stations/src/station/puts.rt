// What a station puts on its way: its status, a block, and every outstanding block again.
ghost use Rattle.std.specs.Prelude.{◌≡◌, true, length};
ghost use Rattle.frames.specs.Parts.{given};
ghost use Rattle.lines.specs.Entries.{on, with_way};
ghost use Rattle.stations.specs.Answers.{AtMost, accept_leaves};
ghost use Rattle.stations.specs.Puts.{status, inform, sent_counts, sent_entries, again_from, again, again_tries, counts};
ghost use Rattle.stations.specs.Station.{send_check};
ghost use Rattle.stations.specs.Views.{station_of};

use super::{FarStatus, Station};
use crate::number::Number;
use crate::puts::deliver;
use crate::{Counts, StationRefusal};
use frames::{Kind, Parts, Way};
use lines::Line;

impl Station {
    // V(R): the N(S) that is expected next.
    fn expected(&self) -> u8
        ensures { result ≡ (station_of self.now).vr }
    {
        self.vr.get()
    }

    // Its own status as a poll or a final.
    pub(crate) fn status(&self) -> Parts<'static>
        ensures { given result ≡ status (station_of self.now) }
    {
        Parts {
            kind: self.own_status(),
            ns: 0,
            nr: self.expected(),
            b: 1,
            info: &[],
        }
    }

    // A block as an I frame.
    fn inform<'a>(&self, ns: Number, block: &'a [u8]) -> Parts<'a>
        ensures { given result ≡ inform (station_of self.now) ns.value block.now }
    {
        Parts {
            kind: Kind::I,
            ns: ns.get(),
            nr: self.expected(),
            b: 0,
            info: block,
        }
    }

    // Open: the block enters the window, and its I frame is put.
    pub(crate) fn send<L: Line>(
        &mut self,
        octets: &[u8],
        line: &mut L,
        way: Way,
    ) -> Result<Counts, StationRefusal>
        ensures answers { result ≡ sent_counts (send_check true (station_of self.old) octets.now) (on way (L.Line.meaning line.old)) (sent_entries (send_check true (station_of self.old) octets.now) (L.Line.meaning line.old).capacity (station_of self.old) octets.now (on way (L.Line.meaning line.old))) }
        ensures leaves { station_of self.new ≡ accept_leaves (send_check true (station_of self.old) octets.now) (station_of self.old) octets.now }
        ensures puts { L.Line.meaning line.new ≡ with_way way (sent_entries (send_check true (station_of self.old) octets.now) (L.Line.meaning line.old).capacity (station_of self.old) octets.now (on way (L.Line.meaning line.old))) (L.Line.meaning line.old) }
        ensures keeps { L.Line.beyond line.new ≡ L.Line.beyond line.old }
    {
        let ns = self.accept(octets)?;
        Ok(deliver(line, way, self.inform(ns, octets)))
    }

    // Every outstanding block, oldest first, under its old N(S).
    fn put_window<L: Line>(&self, line: &mut L, way: Way) -> Counts
        ensures answers { result ≡ counts (length (station_of self.now).window) (on way (L.Line.meaning line.old)) (again_from (L.Line.meaning line.old).capacity (station_of self.now) self.now.va.value (station_of self.now).window (on way (L.Line.meaning line.old))) }
        ensures few { AtMost 7 result }
        ensures leaves { L.Line.meaning line.new ≡ with_way way (again_from (L.Line.meaning line.old).capacity (station_of self.now) self.now.va.value (station_of self.now).window (on way (L.Line.meaning line.old))) (L.Line.meaning line.old) }
        ensures keeps { L.Line.beyond line.new ≡ L.Line.beyond line.old }
    {
        let mut ns = self.va; // it runs modulo 8 beside the blocks
        let mut counts = Counts::default();
        // No fold: of what its closure changes, here the line, a proof knows nothing afterwards.
        for block in self.window.blocks() {
            counts = counts + deliver(line, way, self.inform(ns, block.octets()));
            ns = ns.next();
        }
        counts
    }

    // Sending again. It is skipped at far status RNR.
    pub(crate) fn again<L: Line>(&self, line: &mut L, way: Way) -> Counts
        ensures answers { result ≡ counts (again_tries (station_of self.now)) (on way (L.Line.meaning line.old)) (again (L.Line.meaning line.old).capacity (station_of self.now) (on way (L.Line.meaning line.old))) }
        ensures few { AtMost 7 result }
        ensures leaves { L.Line.meaning line.new ≡ with_way way (again (L.Line.meaning line.old).capacity (station_of self.now) (on way (L.Line.meaning line.old))) (L.Line.meaning line.old) }
        ensures keeps { L.Line.beyond line.new ≡ L.Line.beyond line.old }
    {
        match self.far {
            FarStatus::Busy => Counts::default(),
            FarStatus::Ready => self.put_window(line, way),
        }
    }
}
