// What is wrong with a line that cannot be understood.
ghost use Rattle.std.specs.Prelude.{Some};
ghost use Rattle.console.specs.Faults.{words_of};

use std::fmt;

#[derive(Clone, Copy, PartialEq, Eq, Debug)]
pub enum Fault {
    Command,
    NoLine,
    NoLink,
    Nothing,
    Store,
    K,
    D,
    T,
    Way,
    End,
    Kind,
    Ns,
    Nr,
    B,
    Octets,
    Place,
    Start,
    Mask,
    TooMany,
}

impl fmt::Display for Fault {
    ghost output = { λ f. Some (words_of f) };

    fn fmt<W: fmt::Write>(&self, f: &mut fmt::Formatter<W>) -> fmt::Result {
        f.write_str(match self {
            Fault::Command => "no such command",
            Fault::NoLine => "no line stands",
            Fault::NoLink => "no link stands",
            Fault::Nothing => "no line or link stands",
            Fault::Store => "the line must be table or octet",
            Fault::K => "K must be a decimal number below 2^64",
            Fault::D => "D must be a decimal number below 2^64",
            Fault::T => "T must be a decimal number below 2^64",
            Fault::Way => "the way must be 1 or 2",
            Fault::End => "the end must be primary or secondary",
            Fault::Kind => "the kind must be I, RR, RNR, SARM, DISC, UA or DM",
            Fault::Ns => "N(S) must be a decimal number from 0 to 255",
            Fault::Nr => "N(R) must be a decimal number from 0 to 255",
            Fault::B => "B must be a decimal number from 0 to 255",
            Fault::Octets => "octets must be an even number of hexadecimal digits, or '-' for none",
            Fault::Place => "the place must be a decimal number below 2^64",
            Fault::Start => "the start must be a decimal number below 2^64",
            Fault::Mask => "the mask must be a decimal number from 0 to 65535",
            Fault::TooMany => "too many words",
        })
    }
}
