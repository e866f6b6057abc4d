// Why a link refuses a call: a refusal of its own, or the line's or a station's passed on.
use lines::LineRefusal;
use stations::StationRefusal;

mod calls;

#[derive(Clone, Copy, PartialEq, Eq, Debug)]
pub enum LinkRefusal {
    Line(LineRefusal),
    Timer,
    InUse,
    Station(StationRefusal),
}
