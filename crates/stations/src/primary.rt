// The primary: it opens and closes the link, polls, and keeps the timer.
use crate::{Mode, Station};

mod calls;

#[derive(Clone, Copy)]
pub struct Primary {
    mode: Mode,
    timer: Option<usize>,
    station: Station,
}
