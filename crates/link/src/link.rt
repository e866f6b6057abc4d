// A link over any line: the line, T, what its check answered, and the two stations. What a call answers, leaves and keeps
// are clauses of each call. (An `impl Model` would be no plainer: its Value cannot hold what `keeps` speaks of, since
// `Beyond` is a type of the line's own.)
use crate::LinkRefusal;
use lines::Line;
use stations::{Primary, Secondary};

mod calls;
mod drain;
mod play;
mod questions;

#[derive(Drop)]
pub struct Link<L: Line> {
    line: L,
    limit: usize,
    checked: Result<(), LinkRefusal>, // a link that its check refused answers that before all else
    // Two types: a call at an end matches on it. (A trait of both would be no plainer: five calls, each written twice.)
    primary: Primary,
    secondary: Secondary,
}
