ghost use Rattle.std.specs.Prelude.{◌≡◌, Some};
ghost use Rattle.link.specs.Refusals.{number_of, word_of};
ghost use Rattle.link.specs.declared.refusal.LinkRefusal.TheVariants.{Line as ByLine, Station as ByStation};

use super::LinkRefusal;
use lines::LineRefusal;
use stations::StationRefusal;
use std::error::Error;
use std::fmt;

impl From<LineRefusal> for LinkRefusal {
    ghost from_gives = { λ e r. r ≡ ByLine e };

    fn from(refusal: LineRefusal) -> LinkRefusal {
        LinkRefusal::Line(refusal)
    }
}

impl From<StationRefusal> for LinkRefusal {
    ghost from_gives = { λ e r. r ≡ ByStation e };

    fn from(refusal: StationRefusal) -> LinkRefusal {
        LinkRefusal::Station(refusal)
    }
}

impl LinkRefusal {
    // The number that stands for the refusal wherever numbers are printed or passed on.
    pub fn number(self) -> u8
        ensures { result ≡ number_of self }
    {
        match self {
            LinkRefusal::Line(refusal) => refusal.number(),
            LinkRefusal::Timer => 16,
            LinkRefusal::InUse => 17,
            LinkRefusal::Station(refusal) => refusal.number(),
        }
    }

    // The word that is printed beside the number.
    pub fn word(self) -> &'static str
        ensures { result.now ≡ word_of self }
    {
        match self {
            LinkRefusal::Line(refusal) => refusal.word(),
            LinkRefusal::Timer => "timer",
            LinkRefusal::InUse => "in use",
            LinkRefusal::Station(refusal) => refusal.word(),
        }
    }
}

// A refusal is shown by its word.
impl fmt::Display for LinkRefusal {
    ghost output = { λ r. Some (word_of r) };

    fn fmt<W: fmt::Write>(&self, f: &mut fmt::Formatter<W>) -> fmt::Result {
        f.write_str(self.word())
    }
}

impl Error for LinkRefusal {}
