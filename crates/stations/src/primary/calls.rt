ghost use Rattle.std.specs.Prelude.{◌≡◌, true, length, is_ok, None, Ok};
ghost use Rattle.frames.specs.Blocks.{parts_in};
ghost use Rattle.lines.specs.Entries.{with_way};
ghost use Rattle.stations.specs.declared.mode.Mode.TheVariants.{Closed};
ghost use Rattle.stations.specs.Station.{fresh, outstanding, fetch_answer};
ghost use Rattle.stations.specs.Answers.{fetch_length, fetch_writes, FewTaken};
ghost use Rattle.frames.specs.declared.way.Way.TheVariants.{One};
ghost use Rattle.frames.specs.Parts.{given};
ghost use Rattle.frames.specs.Writer.{admit_answer};
ghost use Rattle.stations.specs.Primary.{due, idle_check};
ghost use Rattle.stations.specs.Puts.{put, counts};
ghost use Rattle.stations.specs.Views.{primary_of, asked_primary, fetched_primary, is_busy};
ghost use Rattle.stations.specs.Calls.{opens, closes, polls, sends, ticks, hears, primary_after, one_after, move_counts, move_answer, status_hears, status_move};

use super::Primary;
use crate::puts::deliver;
use crate::{Counts, FarStatus, Mode, Station, StationRefusal, Taken};
use frames::{FrameBuf, Kind, Parts, Way};
use lines::Line;

impl Primary {
    // Closed, reset, with nothing waiting and no timer.
    pub fn new() -> Primary
        ensures { primary_of result ≡ record { mode = Closed; timer = None; station = fresh } }
    {
        Primary {
            mode: Mode::Closed,
            timer: None,
            station: Station::new(),
        }
    }

    pub fn mode(&self) -> Mode
        ensures { result ≡ (primary_of self.now).mode }
    {
        self.mode
    }

    // The ticks since the request that it waits for an answer to.
    pub fn timer(&self) -> Option<usize>
        ensures { result ≡ (primary_of self.now).timer }
    {
        self.timer // off where no request is waiting
    }

    // `outstanding`, `waiting` and `fetch` hand on to the station, as at the secondary: a trait for both would be longer
    // than their one line each.

    // How many blocks are sent and not acknowledged.
    pub fn outstanding(&self) -> usize
        ensures { result ≡ outstanding (primary_of self.now).station }
    {
        self.station.outstanding()
    }

    // How many blocks wait to be fetched.
    pub fn waiting(&self) -> usize
        ensures { result ≡ length (primary_of self.now).station.waiting }
    {
        self.station.waiting()
    }

    // Open with no poll outstanding, or the refusal.
    fn idle(&self) -> Result<(), StationRefusal>
        ensures { result ≡ idle_check self.now.mode self.now.timer }
    {
        match (self.mode, self.timer) {
            (Mode::Open, None) => Ok(()),
            (Mode::Open, Some(_)) => Err(StationRefusal::Polling),
            _ => Err(StationRefusal::Mode),
        }
    }

    // What it asks by its mode: SARM (opening), DISC (closing) or a poll (open).
    fn due(&self) -> Parts<'static>
        ensures { given result ≡ due self.now.mode (primary_of self.now).station }
    {
        match self.mode {
            Mode::Opening => Parts::plain(Kind::Sarm),
            Mode::Closing => Parts::plain(Kind::Disc),
            Mode::Open | Mode::Closed => self.station.status(),
        }
    }

    // The frame is put, and the timer is 0.
    fn ask<L: Line>(&mut self, frame: Parts<'_>, line: &mut L) -> Counts
        requires { is_ok (admit_answer One (given frame)) ≡ true }
        ensures answers { result ≡ counts 1 (L.Line.meaning line.old).one (put (L.Line.meaning line.old).capacity (L.Line.meaning line.old).one (given frame.entry)) }
        ensures leaves { primary_of self.new ≡ asked_primary (primary_of self.old) }
        ensures puts { L.Line.meaning line.new ≡ with_way One (put (L.Line.meaning line.old).capacity (L.Line.meaning line.old).one (given frame.entry)) (L.Line.meaning line.old) }
        ensures keeps { L.Line.beyond line.new ≡ L.Line.beyond line.old }
    {
        self.timer = Some(0);
        deliver(line, Way::One, frame)
    }

    // Closed: becomes opening, puts SARM, timer 0.
    pub fn open<L: Line>(&mut self, line: &mut L) -> Result<Counts, StationRefusal>
        ensures answers { result ≡ move_counts (opens (primary_of self.old) (L.Line.meaning line.old)) (L.Line.meaning line.old) }
        ensures leaves { primary_of self.new ≡ primary_after (opens (primary_of self.old) (L.Line.meaning line.old)) (primary_of self.old) }
        ensures puts { L.Line.meaning line.new ≡ one_after (opens (primary_of self.old) (L.Line.meaning line.old)) (L.Line.meaning line.old) }
        ensures keeps { L.Line.beyond line.new ≡ L.Line.beyond line.old }
    {
        if self.mode != Mode::Closed {
            return Err(StationRefusal::Mode);
        }
        self.mode = Mode::Opening;
        Ok(self.ask(Parts::plain(Kind::Sarm), line))
    }

    // Open with no poll outstanding: becomes closing, puts DISC, timer 0.
    pub fn close<L: Line>(&mut self, line: &mut L) -> Result<Counts, StationRefusal>
        ensures answers { result ≡ move_counts (closes (primary_of self.old) (L.Line.meaning line.old)) (L.Line.meaning line.old) }
        ensures leaves { primary_of self.new ≡ primary_after (closes (primary_of self.old) (L.Line.meaning line.old)) (primary_of self.old) }
        ensures puts { L.Line.meaning line.new ≡ one_after (closes (primary_of self.old) (L.Line.meaning line.old)) (L.Line.meaning line.old) }
        ensures keeps { L.Line.beyond line.new ≡ L.Line.beyond line.old }
    {
        self.idle()?;
        self.mode = Mode::Closing;
        Ok(self.ask(Parts::plain(Kind::Disc), line))
    }

    // Open with no poll outstanding: puts its own status with B 1, timer 0.
    pub fn poll<L: Line>(&mut self, line: &mut L) -> Result<Counts, StationRefusal>
        ensures answers { result ≡ move_counts (polls (primary_of self.old) (L.Line.meaning line.old)) (L.Line.meaning line.old) }
        ensures leaves { primary_of self.new ≡ primary_after (polls (primary_of self.old) (L.Line.meaning line.old)) (primary_of self.old) }
        ensures puts { L.Line.meaning line.new ≡ one_after (polls (primary_of self.old) (L.Line.meaning line.old)) (L.Line.meaning line.old) }
        ensures keeps { L.Line.beyond line.new ≡ L.Line.beyond line.old }
    {
        self.idle()?;
        let status = self.station.status();
        Ok(self.ask(status, line))
    }

    // Open: the block enters the window, and its I frame is put.
    pub fn send<L: Line>(&mut self, octets: &[u8], line: &mut L) -> Result<Counts, StationRefusal>
        ensures answers { result ≡ move_counts (sends (primary_of self.old) octets.now (L.Line.meaning line.old)) (L.Line.meaning line.old) }
        ensures leaves { primary_of self.new ≡ primary_after (sends (primary_of self.old) octets.now (L.Line.meaning line.old)) (primary_of self.old) }
        ensures puts { L.Line.meaning line.new ≡ one_after (sends (primary_of self.old) octets.now (L.Line.meaning line.old)) (L.Line.meaning line.old) }
        ensures keeps { L.Line.beyond line.new ≡ L.Line.beyond line.old }
    {
        if self.mode != Mode::Open {
            return Err(StationRefusal::Mode);
        }
        self.station.send(octets, line, Way::One)
    }

    // The oldest waiting block leaves, in any mode, and is written to the front of the place.
    pub fn fetch(&mut self, place: &mut [u8; 64]) -> Result<usize, StationRefusal>
        ensures answers { result ≡ fetch_length (fetch_answer (primary_of self.old).station) }
        ensures writes { place.new ≡ fetch_writes (fetch_answer (primary_of self.old).station) place.old }
        ensures leaves { primary_of self.new ≡ fetched_primary (primary_of self.old) }
    {
        self.station.fetch(place)
    }

    // A running timer rises by 1. At the limit SARM (opening), DISC (closing) or a poll (open) is put, and the timer
    // is 0.
    pub fn tick<L: Line>(&mut self, limit: usize, line: &mut L) -> Counts
        ensures answers { result ≡ counts (ticks (primary_of self.old) limit (L.Line.meaning line.old)).tried (L.Line.meaning line.old).one (ticks (primary_of self.old) limit (L.Line.meaning line.old)).out }
        ensures leaves { primary_of self.new ≡ primary_after (Ok (ticks (primary_of self.old) limit (L.Line.meaning line.old))) (primary_of self.old) }
        ensures puts { L.Line.meaning line.new ≡ one_after (Ok (ticks (primary_of self.old) limit (L.Line.meaning line.old))) (L.Line.meaning line.old) }
        ensures keeps { L.Line.beyond line.new ≡ L.Line.beyond line.old }
    {
        let Some(n) = self.timer else {
            return Counts::default();
        };
        if n < limit.saturating_sub(1) {
            self.timer = Some(n + 1);
            return Counts::default();
        }
        self.ask(self.due(), line)
    }

    // RR or RNR when open: the number rule; on a final the timer is off, and outstanding blocks are sent again.
    fn hear_status<L: Line>(
        &mut self,
        far: FarStatus,
        frame: &FrameBuf,
        line: &mut L,
    ) -> Result<Taken, StationRefusal>
        ensures answers { result ≡ move_answer (status_hears (primary_of self.old) (is_busy far) frame.now.nr frame.now.b (L.Line.meaning line.old)) (L.Line.meaning line.old) }
        ensures few { FewTaken result }
        ensures leaves { primary_of self.new ≡ status_move self.old.mode (status_hears (primary_of self.old) (is_busy far) frame.now.nr frame.now.b (L.Line.meaning line.old)) }
        ensures puts { L.Line.meaning line.new ≡ one_after (Ok (status_hears (primary_of self.old) (is_busy far) frame.now.nr frame.now.b (L.Line.meaning line.old))) (L.Line.meaning line.old) }
        ensures keeps { L.Line.beyond line.new ≡ L.Line.beyond line.old }
    {
        let heard = self.station.hear_status(far, frame.nr)?;
        if frame.b == 1 && self.timer.is_some() {
            self.timer = None;
            return Ok(heard.with(self.station.again(line, Way::One)));
        }
        Ok(heard.with(Counts::default()))
    }

    // What it does on a frame, by its mode and the frame's kind.
    pub fn hear<L: Line>(&mut self, frame: FrameBuf, line: &mut L) -> Result<Taken, StationRefusal>
        ensures answers { result ≡ move_answer (hears (primary_of self.old) (parts_in frame) (L.Line.meaning line.old)) (L.Line.meaning line.old) }
        ensures few { FewTaken result }
        ensures leaves { primary_of self.new ≡ primary_after (Ok (hears (primary_of self.old) (parts_in frame) (L.Line.meaning line.old))) (primary_of self.old) }
        ensures puts { L.Line.meaning line.new ≡ one_after (Ok (hears (primary_of self.old) (parts_in frame) (L.Line.meaning line.old))) (L.Line.meaning line.old) }
        ensures keeps { L.Line.beyond line.new ≡ L.Line.beyond line.old }
    {
        match (self.mode, frame.kind) {
            (Mode::Opening, Kind::Ua) => {
                self.station.reset();
                self.mode = Mode::Open;
                self.timer = None;
                Ok(Taken::heeded(Counts::default()))
            }
            (Mode::Closing, Kind::Ua | Kind::Dm) => {
                self.mode = Mode::Closed;
                self.timer = None;
                Ok(Taken::heeded(Counts::default()))
            }
            (Mode::Open, Kind::I) => {
                let heard = self.station.hear_block(&frame)?;
                Ok(heard.with(Counts::default()))
            }
            (Mode::Open, Kind::Rr) => self.hear_status(FarStatus::Ready, &frame, line),
            (Mode::Open, Kind::Rnr) => self.hear_status(FarStatus::Busy, &frame, line),
            _ => Ok(Taken::passed()),
        }
    }
}
