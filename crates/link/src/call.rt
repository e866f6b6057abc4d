// The calls on a link, as values, so that a list of them can be played.
use crate::End;
use frames::{Block, Burst, Way};

#[derive(Clone, Copy)]
pub enum Call {
    Open,
    Close,
    Poll,
    Tick,
    Send(End, Block),
    Take(End),
    Fetch(End),
    Strike(Way, usize, Burst),
}
