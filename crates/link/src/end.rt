// The two ends of a link.
ghost use Rattle.std.specs.Prelude.{◌≡◌};
ghost use Rattle.link.specs.Drain.{way_to};

use frames::Way;

#[derive(Clone, Copy, PartialEq, Eq, Debug)]
pub enum End {
    Primary,
    Secondary,
}

impl End {
    // The way that leads to the end.
    pub(crate) fn incoming(self) -> Way
        ensures { result ≡ way_to self }
    {
        match self {
            End::Primary => Way::Two,
            End::Secondary => Way::One,
        }
    }
}
