ghost use Rattle.std.specs.Prelude.{◌≡◌, suc, false, length, Ok};
ghost use Rattle.frames.specs.Blocks.{parts_in};
ghost use Rattle.frames.specs.declared.way.Way.TheVariants.{Two};
ghost use Rattle.lines.specs.Entries.{with_way};
ghost use Rattle.stations.specs.Station.{fresh, outstanding, fetch_answer};
ghost use Rattle.stations.specs.Puts.{put, status, again, again_tries, counts};
ghost use Rattle.stations.specs.Answers.{fetch_length, fetch_writes, FewFrames, FewTaken};
ghost use Rattle.stations.specs.Views.{secondary_of, opened_by, fetched_secondary, is_busy};
ghost use Rattle.stations.specs.Calls.{replies, returns, secondary_after, two_after, reply_counts, reply_answer, status_replies, status_reply};

use super::{Secondary, SecondaryMode};
use crate::puts::deliver;
use crate::{Counts, FarStatus, Station, StationRefusal, Taken};
use frames::{FrameBuf, Kind, Parts, Way};
use lines::Line;

impl Secondary {
    // Closed, reset, with nothing waiting.
    pub fn new() -> Secondary
        ensures { secondary_of result ≡ record { opened = false; station = fresh } }
    {
        Secondary {
            mode: SecondaryMode::Closed,
            station: Station::new(),
        }
    }

    pub fn mode(&self) -> SecondaryMode
        ensures { opened_by result ≡ (secondary_of self.now).opened }
    {
        self.mode
    }

    // How many blocks are sent and not acknowledged.
    pub fn outstanding(&self) -> usize
        ensures { result ≡ outstanding (secondary_of self.now).station }
    {
        self.station.outstanding()
    }

    // How many blocks wait to be fetched.
    pub fn waiting(&self) -> usize
        ensures { result ≡ length (secondary_of self.now).station.waiting }
    {
        self.station.waiting()
    }

    // Open: the block enters the window, and its I frame is put.
    pub fn send<L: Line>(&mut self, octets: &[u8], line: &mut L) -> Result<Counts, StationRefusal>
        ensures answers { result ≡ reply_counts (returns (secondary_of self.old) octets.now (L.Line.meaning line.old)) (L.Line.meaning line.old) }
        ensures leaves { secondary_of self.new ≡ secondary_after (returns (secondary_of self.old) octets.now (L.Line.meaning line.old)) (secondary_of self.old) }
        ensures puts { L.Line.meaning line.new ≡ two_after (returns (secondary_of self.old) octets.now (L.Line.meaning line.old)) (L.Line.meaning line.old) }
        ensures keeps { L.Line.beyond line.new ≡ L.Line.beyond line.old }
    {
        if self.mode != SecondaryMode::Open {
            return Err(StationRefusal::Mode);
        }
        self.station.send(octets, line, Way::Two)
    }

    // The oldest waiting block leaves, in any mode, and is written to the front of the place.
    pub fn fetch(&mut self, place: &mut [u8; 64]) -> Result<usize, StationRefusal>
        ensures answers { result ≡ fetch_length (fetch_answer (secondary_of self.old).station) }
        ensures writes { place.new ≡ fetch_writes (fetch_answer (secondary_of self.old).station) place.old }
        ensures leaves { secondary_of self.new ≡ fetched_secondary (secondary_of self.old) }
    {
        self.station.fetch(place)
    }

    // The answer to a poll: its own status with B 1, then every outstanding block again.
    fn answer_poll<L: Line>(&self, line: &mut L) -> Counts
        ensures answers { result ≡ counts (suc (again_tries (secondary_of self.now).station)) (L.Line.meaning line.old).two (again (L.Line.meaning line.old).capacity (secondary_of self.now).station (put (L.Line.meaning line.old).capacity (L.Line.meaning line.old).two (status (secondary_of self.now).station))) }
        ensures few { FewFrames result }
        ensures puts { L.Line.meaning line.new ≡ with_way Two (again (L.Line.meaning line.old).capacity (secondary_of self.now).station (put (L.Line.meaning line.old).capacity (L.Line.meaning line.old).two (status (secondary_of self.now).station))) (L.Line.meaning line.old) }
        ensures keeps { L.Line.beyond line.new ≡ L.Line.beyond line.old }
    {
        deliver(line, Way::Two, self.station.status()) + self.station.again(line, Way::Two)
    }

    // RR or RNR when open: the number rule, and the answer to a poll. (What it shares with the primary's is
    // `Station::hear_status`; a poll and a final are answered by rules of their own.)
    fn hear_status<L: Line>(
        &mut self,
        far: FarStatus,
        frame: &FrameBuf,
        line: &mut L,
    ) -> Result<Taken, StationRefusal>
        ensures answers { result ≡ reply_answer (status_replies (secondary_of self.old) (is_busy far) frame.now.nr frame.now.b (L.Line.meaning line.old)) (L.Line.meaning line.old) }
        ensures few { FewTaken result }
        ensures leaves { secondary_of self.new ≡ status_reply self.old.mode (status_replies (secondary_of self.old) (is_busy far) frame.now.nr frame.now.b (L.Line.meaning line.old)) }
        ensures puts { L.Line.meaning line.new ≡ two_after (Ok (status_replies (secondary_of self.old) (is_busy far) frame.now.nr frame.now.b (L.Line.meaning line.old))) (L.Line.meaning line.old) }
        ensures keeps { L.Line.beyond line.new ≡ L.Line.beyond line.old }
    {
        let heard = self.station.hear_status(far, frame.nr)?;
        if frame.b == 1 {
            return Ok(heard.with(self.answer_poll(line)));
        }
        Ok(heard.with(Counts::default()))
    }

    // What it does on a frame, by its mode and the frame's kind.
    pub fn hear<L: Line>(&mut self, frame: FrameBuf, line: &mut L) -> Result<Taken, StationRefusal>
        ensures answers { result ≡ reply_answer (replies (secondary_of self.old) (parts_in frame) (L.Line.meaning line.old)) (L.Line.meaning line.old) }
        ensures few { FewTaken result }
        ensures leaves { secondary_of self.new ≡ secondary_after (Ok (replies (secondary_of self.old) (parts_in frame) (L.Line.meaning line.old))) (secondary_of self.old) }
        ensures puts { L.Line.meaning line.new ≡ two_after (Ok (replies (secondary_of self.old) (parts_in frame) (L.Line.meaning line.old))) (L.Line.meaning line.old) }
        ensures keeps { L.Line.beyond line.new ≡ L.Line.beyond line.old }
    {
        match (self.mode, frame.kind) {
            (_, Kind::Sarm) => {
                self.station.reset();
                self.mode = SecondaryMode::Open;
                Ok(Taken::heeded(deliver(line, Way::Two, Parts::plain(Kind::Ua))))
            }
            (SecondaryMode::Open, Kind::Disc) => {
                self.mode = SecondaryMode::Closed;
                Ok(Taken::heeded(deliver(line, Way::Two, Parts::plain(Kind::Ua))))
            }
            (SecondaryMode::Closed, Kind::Disc) => {
                Ok(Taken::heeded(deliver(line, Way::Two, Parts::plain(Kind::Dm))))
            }
            (SecondaryMode::Open, Kind::I) => {
                let heard = self.station.hear_block(&frame)?;
                Ok(heard.with(Counts::default()))
            }
            (SecondaryMode::Open, Kind::Rr) => self.hear_status(FarStatus::Ready, &frame, line),
            (SecondaryMode::Open, Kind::Rnr) => self.hear_status(FarStatus::Busy, &frame, line),
            _ => Ok(Taken::passed()),
        }
    }
}
