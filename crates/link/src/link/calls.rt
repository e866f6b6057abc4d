ghost use Rattle.std.specs.Prelude.{◌≡◌};
ghost use Rattle.link.specs.Calls.{asked, opens_answer, closes_answer, polls_answer, sends_answer, takes_answer, ticks_answer, fetches_answer, fetched, fetch_writes, strikes_answer};
ghost use Rattle.link.specs.History.{opens, closes, polls, ticks, sends, takes, fetches, strikes, step};
ghost use Rattle.link.specs.State.{check_answer, made};
ghost use Rattle.link.specs.Promise.{Law};
ghost use Rattle.link.specs.DrainPromise.{DrainLaw};
ghost use Rattle.link.specs.Sizes.{FewAnswered};
ghost use Rattle.link.specs.Views.{model};

use super::Link;
use crate::{End, Fetched, LinkRefusal};
use frames::{Burst, Way};
use lines::Line;
use stations::{Counts, Primary, Secondary, Taken};

impl<L: Line> Link<L> {
    // Timer where K is under 8 or T is not 2D + 1 to 10,000; in use where the line is not empty; otherwise yes.
    pub fn check(line: &L, limit: usize) -> Result<(), LinkRefusal>
        ensures { result ≡ check_answer (L.Line.meaning line.now) limit }
    {
        let d = line.lifetime();
        if line.capacity() < 8 || !(2 * d + 1..=10000).contains(&limit) {
            return Err(LinkRefusal::Timer);
        }
        if line.count(Way::One) != 0 || line.count(Way::Two) != 0 {
            return Err(LinkRefusal::InUse);
        }
        Ok(())
    }

    // A new link: both ends closed, reset, with nothing waiting and no timer. Where its check says yes, it keeps the
    // promise over every list of calls that it then meets.
    pub fn make(line: L, limit: usize) -> Link<L>
        ensures makes { model L.Line.meaning result ≡ made (L.Line.meaning line) limit }
        ensures law { Law (model L.Line.meaning result) }
        ensures drains { DrainLaw (model L.Line.meaning result) }
        ensures keeps { L.Line.beyond result.line ≡ L.Line.beyond line }
    {
        let checked = Link::check(&line, limit);
        Link {
            line,
            limit,
            checked,
            primary: Primary::new(),
            secondary: Secondary::new(),
        }
    }

    // Primary closed: it becomes opening, puts SARM, timer 0.
    pub fn open(&mut self) -> Result<Counts, LinkRefusal>
        ensures answers { result ≡ asked (model L.Line.meaning self.old) opens_answer }
        ensures leaves { model L.Line.meaning self.new ≡ step (model L.Line.meaning self.old) opens }
        ensures keeps { L.Line.beyond self.new.line ≡ L.Line.beyond self.old.line }
    {
        self.checked?;
        Ok(self.primary.open(&mut self.line)?)
    }

    // Primary open, no poll outstanding: it becomes closing, puts DISC, timer 0.
    pub fn close(&mut self) -> Result<Counts, LinkRefusal>
        ensures answers { result ≡ asked (model L.Line.meaning self.old) closes_answer }
        ensures leaves { model L.Line.meaning self.new ≡ step (model L.Line.meaning self.old) closes }
        ensures keeps { L.Line.beyond self.new.line ≡ L.Line.beyond self.old.line }
    {
        self.checked?;
        Ok(self.primary.close(&mut self.line)?)
    }

    // Primary open, no poll outstanding: it puts its own status with B 1, timer 0.
    pub fn poll(&mut self) -> Result<Counts, LinkRefusal>
        ensures answers { result ≡ asked (model L.Line.meaning self.old) polls_answer }
        ensures leaves { model L.Line.meaning self.new ≡ step (model L.Line.meaning self.old) polls }
        ensures keeps { L.Line.beyond self.new.line ≡ L.Line.beyond self.old.line }
    {
        self.checked?;
        Ok(self.primary.poll(&mut self.line)?)
    }

    // An open end: the block enters the window, and its I frame is put.
    pub fn send(&mut self, end: End, octets: &[u8]) -> Result<Counts, LinkRefusal>
        ensures answers { result ≡ asked (model L.Line.meaning self.old) (λ g x. sends_answer g end octets.now x) }
        ensures leaves { model L.Line.meaning self.new ≡ step (model L.Line.meaning self.old) (sends end octets.now) }
        ensures keeps { L.Line.beyond self.new.line ≡ L.Line.beyond self.old.line }
    {
        self.checked?;
        match end {
            End::Primary => Ok(self.primary.send(octets, &mut self.line)?),
            End::Secondary => Ok(self.secondary.send(octets, &mut self.line)?),
        }
    }

    // The line first; then a running timer rises by 1, and at T the primary asks again.
    pub fn tick(&mut self) -> Result<Counts, LinkRefusal>
        ensures answers { result ≡ asked (model L.Line.meaning self.old) ticks_answer }
        ensures leaves { model L.Line.meaning self.new ≡ step (model L.Line.meaning self.old) ticks }
        ensures keeps { L.Line.beyond self.new.line ≡ L.Line.beyond self.old.line }
    {
        self.checked?;
        self.line.tick();
        Ok(self.primary.tick(self.limit, &mut self.line))
    }

    // The oldest waiting block of an end leaves, in any mode; it is written to the front of the place, and the octets
    // behind it keep their content.
    pub fn fetch(&mut self, end: End, place: &mut [u8; 64]) -> Result<Fetched, LinkRefusal>
        ensures answers { result ≡ asked (model L.Line.meaning self.old) (λ g x. fetched (fetches_answer end x)) }
        ensures writes { place.new ≡ fetch_writes (asked (model L.Line.meaning self.old) (λ g x. fetches_answer end x)) place.old }
        ensures leaves { model L.Line.meaning self.new ≡ step (model L.Line.meaning self.old) (fetches end) }
        ensures keeps { L.Line.beyond self.new.line ≡ L.Line.beyond self.old.line }
    {
        self.checked?;
        let length = match end {
            End::Primary => self.primary.fetch(place)?,
            End::Secondary => self.secondary.fetch(place)?,
        };
        Ok(Fetched {
            counts: Counts::default(),
            length,
        })
    }

    // The line's strike.
    pub fn strike(&mut self, way: Way, place: usize, burst: Burst) -> Result<Counts, LinkRefusal>
        ensures answers { result ≡ asked (model L.Line.meaning self.old) (λ g x. strikes_answer way place burst.start burst.mask x) }
        ensures leaves { model L.Line.meaning self.new ≡ step (model L.Line.meaning self.old) (strikes way place burst.start burst.mask) }
        ensures keeps { L.Line.beyond self.new.line ≡ L.Line.beyond self.old.line }
    {
        self.checked?;
        self.line.strike(way, place, burst)?;
        Ok(Counts::default())
    }

    // A line's take, then that station's rule.
    pub fn take(&mut self, end: End) -> Result<Taken, LinkRefusal>
        ensures answers { result ≡ asked (model L.Line.meaning self.old) (λ g x. takes_answer g end x) }
        ensures few { FewAnswered result }
        ensures leaves { model L.Line.meaning self.new ≡ step (model L.Line.meaning self.old) (takes end) }
        ensures keeps { L.Line.beyond self.new.line ≡ L.Line.beyond self.old.line }
    {
        self.checked?;
        let frame = self.line.take(end.incoming())?;
        match end {
            End::Primary => Ok(self.primary.hear(frame, &mut self.line)?),
            End::Secondary => Ok(self.secondary.hear(frame, &mut self.line)?),
        }
    }
}
