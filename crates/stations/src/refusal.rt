// Why a station refuses a call or a frame.
ghost use Rattle.std.specs.Prelude.{◌≡◌, Some};
ghost use Rattle.stations.specs.Refusals.{number_of, word_of};

use std::error::Error;
use std::fmt;

#[derive(Clone, Copy, PartialEq, Eq, Debug)]
pub enum StationRefusal {
    Mode = 18,
    LongBlock = 19,
    Window = 20,
    FarBusy = 21,
    Polling = 22,
    Nothing = 23,
    Numbering = 24,
}

impl StationRefusal {
    // The number that stands for the refusal wherever numbers are printed or passed on.
    pub fn number(self) -> u8
        ensures { result ≡ number_of self }
    {
        self as u8
    }

    // The word that is printed beside the number.
    pub fn word(self) -> &'static str
        ensures { result.now ≡ word_of self }
    {
        match self {
            StationRefusal::Mode => "mode",
            StationRefusal::LongBlock => "long block",
            StationRefusal::Window => "window",
            StationRefusal::FarBusy => "far busy",
            StationRefusal::Polling => "polling",
            StationRefusal::Nothing => "none",
            StationRefusal::Numbering => "numbering",
        }
    }
}

// A refusal is shown by its word.
impl fmt::Display for StationRefusal {
    ghost output = { λ r. Some (word_of r) };

    fn fmt<W: fmt::Write>(&self, f: &mut fmt::Formatter<W>) -> fmt::Result {
        f.write_str(self.word())
    }
}

impl Error for StationRefusal {}
