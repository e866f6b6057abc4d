// Why a line refuses a call: a refusal of its own, or the frame's passed on.
use frames::FrameRefusal;

mod calls;

#[derive(Clone, Copy, PartialEq, Eq, Debug)]
pub enum LineRefusal {
    Frame(FrameRefusal),
    Full,
    Idle,
    Damaged,
    NoEntry,
    Struck,
    NoMask,
    OffFrame,
    Measure,
}
