// The words of a line, taken one at a time from the left.
ghost use Rattle.std.specs.Prelude.{◌≡◌};
ghost use Rattle.console.specs.Commands.{named, way_answer, kind_answer, end_answer};
ghost use Rattle.console.specs.Words.{first_word};

use crate::decimal::{decimal, octet, pair};
use crate::error::CommandError;
use crate::fault::Fault;
use crate::octets;
use crate::words::{is, split_word};
use frames::{Kind, Way};
use link::End;
use std::alloc::Global;

// What a word names in a table.
fn named<T: Copy>(word: &[u8], table: &[(&str, T)]) -> Option<T>
    ensures { result ≡ named word.now table.now }
{
    let entry = table.iter().find(|(name, _)| is(word, name));
    entry.map(|(_, value)| *value)
}

fn way(word: &[u8]) -> Option<Way>
    ensures { result ≡ way_answer word.now }
{
    named(word, &[("1", Way::One), ("2", Way::Two)])
}

fn kind(word: &[u8]) -> Option<Kind>
    ensures { result ≡ kind_answer word.now }
{
    let kinds = [
        ("I", Kind::I),
        ("RR", Kind::Rr),
        ("RNR", Kind::Rnr),
        ("SARM", Kind::Sarm),
        ("DISC", Kind::Disc),
        ("UA", Kind::Ua),
        ("DM", Kind::Dm),
    ];
    named(word, &kinds)
}

fn end(word: &[u8]) -> Option<End>
    ensures { result ≡ end_answer word.now }
{
    let ends = [("primary", End::Primary), ("secondary", End::Secondary)];
    named(word, &ends)
}

#[derive(Drop)]
pub struct Arguments<'a> {
    rest: &'a [u8],
}

impl<'a> Arguments<'a> {
    pub fn new(line: &'a [u8]) -> Arguments<'a>
        ensures { result.rest.now ≡ line.now }
    {
        Arguments { rest: line }
    }

    // The next word, empty where there is none. (An Option would be no plainer: a missing word is refused as a wrong one is.)
    pub fn word(&mut self) -> &'a [u8]
        ensures { result.now ≡ first_word self.old.rest.now }
    {
        let (word, rest) = split_word(self.rest);
        self.rest = rest;
        word
    }

    pub fn way(&mut self) -> Result<Way, Fault> {
        way(self.word()).ok_or(Fault::Way)
    }

    pub fn kind(&mut self) -> Result<Kind, Fault> {
        kind(self.word()).ok_or(Fault::Kind)
    }

    pub fn end(&mut self) -> Result<End, Fault> {
        end(self.word()).ok_or(Fault::End)
    }

    // A number from 0 to 255.
    pub fn octet(&mut self, fault: Fault) -> Result<u8, Fault> {
        octet(self.word()).ok_or(fault)
    }

    // A number from 0 to 65535.
    pub fn mask(&mut self) -> Result<u16, Fault> {
        pair(self.word()).ok_or(Fault::Mask)
    }

    // A number below 2^64.
    pub fn number(&mut self, fault: Fault) -> Result<usize, Fault> {
        decimal(self.word(), usize::MAX).ok_or(fault)
    }

    pub fn octets(&mut self, heap: Global) -> Result<Vec<u8>, CommandError> {
        let octets = octets::parse(heap, self.word())?;
        Ok(octets.ok_or(Fault::Octets)?)
    }

    // No word may be left.
    pub fn done(&mut self) -> Result<(), Fault> {
        if self.word().is_empty() {
            Ok(())
        } else {
            Err(Fault::TooMany)
        }
    }
}
