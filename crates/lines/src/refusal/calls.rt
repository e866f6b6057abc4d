ghost use Rattle.std.specs.Prelude.{◌≡◌, Some};
ghost use Rattle.lines.specs.Refusals.{number_of, word_of};
ghost use Rattle.lines.specs.declared.refusal.LineRefusal.TheVariants.{Frame, Full};

use super::LineRefusal;
use crate::RingFull;
use frames::FrameRefusal;
use std::error::Error;
use std::fmt;

impl From<FrameRefusal> for LineRefusal {
    ghost from_gives = { λ e r. r ≡ Frame e };

    fn from(refusal: FrameRefusal) -> LineRefusal {
        LineRefusal::Frame(refusal)
    }
}

// A way that holds as many entries as it can is full.
impl From<RingFull> for LineRefusal {
    ghost from_gives = { λ e r. r ≡ Full };

    fn from(_full: RingFull) -> LineRefusal {
        LineRefusal::Full
    }
}

impl LineRefusal {
    // The number that stands for the refusal wherever numbers are printed or passed on.
    pub fn number(self) -> u8
        ensures { result ≡ number_of self }
    {
        match self {
            LineRefusal::Frame(refusal) => refusal.number(),
            LineRefusal::Full => 8,
            LineRefusal::Idle => 9,
            LineRefusal::Damaged => 10,
            LineRefusal::NoEntry => 11,
            LineRefusal::Struck => 12,
            LineRefusal::NoMask => 13,
            LineRefusal::OffFrame => 14,
            LineRefusal::Measure => 15,
        }
    }

    // The word that is printed beside the number.
    pub fn word(self) -> &'static str
        ensures { result.now ≡ word_of self }
    {
        match self {
            LineRefusal::Frame(refusal) => refusal.word(),
            LineRefusal::Full => "line full",
            LineRefusal::Idle => "idle",
            LineRefusal::Damaged => "damaged",
            LineRefusal::NoEntry => "no entry",
            LineRefusal::Struck => "struck",
            LineRefusal::NoMask => "no mask",
            LineRefusal::OffFrame => "off frame",
            LineRefusal::Measure => "measure",
        }
    }
}

// A refusal is shown by its word.
impl fmt::Display for LineRefusal {
    ghost output = { λ r. Some (word_of r) };

    fn fmt<W: fmt::Write>(&self, f: &mut fmt::Formatter<W>) -> fmt::Result {
        f.write_str(self.word())
    }
}

impl Error for LineRefusal {}
