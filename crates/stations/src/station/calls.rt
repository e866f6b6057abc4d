ghost use Rattle.std.specs.Prelude.{◌≡◌, true, length};
ghost use Rattle.frames.specs.Blocks.{octets_in};
ghost use Rattle.stations.specs.Station.{fresh, reset, outstanding, own_status, send_check, fetch_answer, fetch_leaves};
ghost use Rattle.stations.specs.Rule.{hear_i, hear_s};
ghost use Rattle.stations.specs.Answers.{passing, after_number, rule_answer, accepted, accept_by, accept_leaves, fetch_length, fetch_writes};
ghost use Rattle.stations.specs.Views.{station_of, is_busy};

use super::{FarStatus, Station};
use crate::number::Number;
use crate::{Heard, Queue, StationRefusal, Window};
use frames::{FrameBuf, Kind};

impl Station {
    // A station before anything has happened.
    pub(crate) fn new() -> Station
        ensures { station_of result ≡ fresh }
    {
        Station {
            vs: Number::of(0),
            va: Number::of(0),
            vr: Number::of(0),
            far: FarStatus::Ready,
            window: Window::new(),
            queue: Queue::new(),
        }
    }

    // The numbers are 0, the window is empty, the far status is RR; waiting blocks stay.
    pub(crate) fn reset(&mut self)
        ensures { station_of self.new ≡ reset (station_of self.old) }
    {
        // Field by field: a new station with the old queue in it would copy the queue twice.
        self.window = Window::new();
        self.vs = Number::of(0);
        self.va = Number::of(0);
        self.vr = Number::of(0);
        self.far = FarStatus::Ready;
    }

    // How many blocks are sent and not acknowledged.
    pub(crate) fn outstanding(&self) -> usize
        ensures { result ≡ outstanding (station_of self.now) }
    {
        self.vs.since(self.va)
    }

    // How many blocks wait to be fetched.
    pub(crate) fn waiting(&self) -> usize
        ensures { result ≡ length (station_of self.now).waiting }
    {
        self.queue.len()
    }

    // RNR when 7 blocks wait, otherwise RR.
    pub(crate) fn own_status(&self) -> Kind
        ensures { result ≡ own_status (station_of self.now) }
    {
        if self.queue.is_full() {
            Kind::Rnr
        } else {
            Kind::Rr
        }
    }

    // The blocks that N(R) passes are acknowledged, unless they are more than are outstanding.
    fn acknowledge(&mut self, nr: u8) -> Result<usize, StationRefusal>
        ensures answers { result ≡ passing (station_of self.old) nr }
        ensures leaves { station_of self.new ≡ after_number (station_of self.old) nr }
    {
        let nr = Number::of(nr);
        let passed = nr.since(self.va);
        if passed > self.outstanding() {
            return Err(StationRefusal::Numbering);
        }
        self.window.shed(passed);
        self.va = nr;
        Ok(passed)
    }

    // An I frame: the number rule, and the block is taken in where its N(S) is V(R) and fewer than 7 wait.
    pub(crate) fn hear_block(&mut self, frame: &FrameBuf) -> Result<Heard, StationRefusal>
        ensures answers { result ≡ rule_answer (hear_i (station_of self.old) frame.now.ns frame.now.nr (octets_in frame.now.block)) }
        ensures leaves { station_of self.new ≡ (hear_i (station_of self.old) frame.now.ns frame.now.nr (octets_in frame.now.block)).station }
    {
        let acknowledged = self.acknowledge(frame.nr)?;
        let taken = frame.ns == self.vr.get() && self.queue.push(frame.block.octets());
        if taken {
            self.vr = self.vr.next();
        }
        Ok(Heard {
            acknowledged,
            taken,
        })
    }

    // RR or RNR: the number rule, and the far status.
    pub(crate) fn hear_status(&mut self, far: FarStatus, nr: u8) -> Result<Heard, StationRefusal>
        ensures answers { result ≡ rule_answer (hear_s (station_of self.old) (is_busy far) nr) }
        ensures leaves { station_of self.new ≡ (hear_s (station_of self.old) (is_busy far) nr).station }
    {
        let acknowledged = self.acknowledge(nr)?;
        self.far = far;
        Ok(Heard {
            acknowledged,
            taken: false,
        })
    }

    // A block enters the window of an open end, unless it is long, 7 are outstanding or the far end is busy. It
    // answers the block's N(S).
    pub(super) fn accept(&mut self, octets: &[u8]) -> Result<Number, StationRefusal>
        ensures answers { accepted result ≡ accept_by (send_check true (station_of self.old) octets.now) (station_of self.old) }
        ensures leaves { station_of self.new ≡ accept_leaves (send_check true (station_of self.old) octets.now) (station_of self.old) octets.now }
    {
        if octets.len() > 64 {
            return Err(StationRefusal::LongBlock);
        }
        if self.outstanding() >= 7 {
            return Err(StationRefusal::Window);
        }
        if self.far == FarStatus::Busy {
            return Err(StationRefusal::FarBusy);
        }
        let ns = self.vs;
        let _fitted = self.window.push(octets);
        self.vs = ns.next();
        Ok(ns)
    }

    // The oldest waiting block leaves and is written to the front of the place; its length is the answer.
    pub(crate) fn fetch(&mut self, place: &mut [u8; 64]) -> Result<usize, StationRefusal>
        ensures answers { result ≡ fetch_length (fetch_answer (station_of self.old)) }
        ensures writes { place.new ≡ fetch_writes (fetch_answer (station_of self.old)) place.old }
        ensures leaves { station_of self.new ≡ fetch_leaves (station_of self.old) }
    {
        let block = self.queue.pop().ok_or(StationRefusal::Nothing)?;
        let n = block.len();
        place[0..n].copy_from_slice(block.octets());
        Ok(n)
    }
}
