// The secondary: it answers the primary.
use crate::Station;

mod calls;

// The modes of the secondary.
#[derive(Clone, Copy, PartialEq, Eq, Debug)]
pub enum SecondaryMode {
    Closed,
    Open,
}

#[derive(Clone, Copy)]
pub struct Secondary {
    mode: SecondaryMode,
    station: Station,
}
