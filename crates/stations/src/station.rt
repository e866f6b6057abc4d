// What either end keeps: the numbers, the window, the far status and the receive queue.
ghost use Rattle.std.specs.Prelude.{◌≡◌, ◌+◌, ◌-◌, ◌%◌, length};
ghost use Rattle.stations.specs.Blocks.{in_row};

use crate::number::Number;
use crate::{Queue, Window};

mod calls;
mod puts;

// The status that the other end told last: RR or RNR.
#[derive(Clone, Copy, PartialEq, Eq, Debug)]
pub enum FarStatus {
    Ready,
    Busy,
}

// No `impl Model`, for the reason at `Row`, which it holds twice.
#[derive(Clone, Copy)]
pub struct Station {
    vs: Number,
    va: Number,
    vr: Number,
    far: FarStatus,
    window: Window,
    queue: Queue,
    ghost outstanding: { length (in_row window) ≡ (vs.value + (8 - va.value)) % 8 },
}
