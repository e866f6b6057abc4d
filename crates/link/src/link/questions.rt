ghost use Rattle.std.specs.Prelude.{◌≡◌};
ghost use Rattle.stations.specs.Views.{opened_by};
ghost use Rattle.link.specs.Questions.{mode_of, secondary_open, outstanding_at, waiting_at, entries_on};
ghost use Rattle.link.specs.Views.{model};

use super::Link;
use crate::End;
use frames::Way;
use lines::Line;
use stations::{Mode, SecondaryMode};

impl<L: Line> Link<L> {
    pub fn primary_mode(&self) -> Mode
        ensures { result ≡ mode_of (model L.Line.meaning self.now).now }
    {
        self.primary.mode()
    }

    pub fn secondary_mode(&self) -> SecondaryMode
        ensures { opened_by result ≡ secondary_open (model L.Line.meaning self.now).now }
    {
        self.secondary.mode()
    }

    // How many blocks an end has sent that are not acknowledged.
    pub fn outstanding(&self, end: End) -> usize
        ensures { result ≡ outstanding_at end (model L.Line.meaning self.now).now }
    {
        match end {
            End::Primary => self.primary.outstanding(),
            End::Secondary => self.secondary.outstanding(),
        }
    }

    // How many blocks wait to be fetched at an end.
    pub fn waiting(&self, end: End) -> usize
        ensures { result ≡ waiting_at end (model L.Line.meaning self.now).now }
    {
        match end {
            End::Primary => self.primary.waiting(),
            End::Secondary => self.secondary.waiting(),
        }
    }

    // How many entries a way holds.
    pub fn entries(&self, way: Way) -> usize
        ensures { result ≡ entries_on way (model L.Line.meaning self.now).now }
    {
        self.line.count(way)
    }
}
