// Values of the link and of its stations, as the console writes them.
use link::Drained;
use stations::{Counts, Mode, SecondaryMode, Taken};
use std::fmt;

#[derive(Clone, Copy)]
pub struct Shown<T>(pub T);

impl fmt::Display for Shown<bool> {
    fn fmt<W: fmt::Write>(&self, f: &mut fmt::Formatter<W>) -> fmt::Result {
        f.write_str(if self.0 { "yes" } else { "no" })
    }
}

impl fmt::Display for Shown<Mode> {
    fn fmt<W: fmt::Write>(&self, f: &mut fmt::Formatter<W>) -> fmt::Result {
        f.write_str(match self.0 {
            Mode::Closed => "closed",
            Mode::Opening => "opening",
            Mode::Open => "open",
            Mode::Closing => "closing",
        })
    }
}

impl fmt::Display for Shown<SecondaryMode> {
    fn fmt<W: fmt::Write>(&self, f: &mut fmt::Formatter<W>) -> fmt::Result {
        f.write_str(match self.0 {
            SecondaryMode::Closed => "closed",
            SecondaryMode::Open => "open",
        })
    }
}

impl fmt::Display for Shown<Counts> {
    fn fmt<W: fmt::Write>(&self, f: &mut fmt::Formatter<W>) -> fmt::Result {
        let Counts { put, lost } = self.0;
        write!(f, "put={put} lost={lost}")
    }
}

impl fmt::Display for Shown<Taken> {
    fn fmt<W: fmt::Write>(&self, f: &mut fmt::Formatter<W>) -> fmt::Result {
        let counts = Shown(self.0.counts);
        let acknowledged = self.0.acknowledged;
        let taken = Shown(self.0.taken);
        let passed = Shown(self.0.passed);
        write!(
            f,
            "{counts} acknowledged={acknowledged} taken={taken} passed={passed}"
        )
    }
}

impl fmt::Display for Shown<Drained> {
    fn fmt<W: fmt::Write>(&self, f: &mut fmt::Formatter<W>) -> fmt::Result {
        let counts = Shown(self.0.counts);
        let ticks = self.0.ticks;
        let takes = self.0.takes;
        let settled = Shown(self.0.settled);
        write!(f, "{counts} ticks={ticks} takes={takes} settled={settled}")
    }
}
