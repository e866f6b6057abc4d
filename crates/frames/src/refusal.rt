// Why octets are not read, or a frame is not written.
ghost use Rattle.std.specs.Prelude.{◌≡◌, Some};
ghost use Rattle.frames.specs.Refusals.{number_of, word_of};

use std::error::Error;
use std::fmt;

#[derive(Clone, Copy, PartialEq, Eq, Debug)]
pub enum FrameRefusal {
    Short = 1,
    Long = 2,
    Check = 3,
    Address = 4,
    Control = 5,
    Stray = 6,
    NoSpace = 7,
}

impl FrameRefusal {
    // The number that stands for the refusal wherever numbers are printed or passed on.
    pub fn number(self) -> u8
        ensures { result ≡ number_of self }
    {
        self as u8
    }

    // The word that is printed beside the number.
    pub fn word(self) -> &'static str
        ensures { result.now ≡ word_of self }
    {
        match self {
            FrameRefusal::Short => "short",
            FrameRefusal::Long => "long",
            FrameRefusal::Check => "check",
            FrameRefusal::Address => "address",
            FrameRefusal::Control => "control",
            FrameRefusal::Stray => "stray",
            FrameRefusal::NoSpace => "no space",
        }
    }
}

// A refusal is shown by its word. (Each layer says so of its own refusals: one impl for all would stand neither with the
// trait nor with the type.)
impl fmt::Display for FrameRefusal {
    ghost output = { λ r. Some (word_of r) };

    fn fmt<W: fmt::Write>(&self, f: &mut fmt::Formatter<W>) -> fmt::Result {
        f.write_str(self.word())
    }
}

impl Error for FrameRefusal {}
