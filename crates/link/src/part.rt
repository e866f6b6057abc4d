// The parts that a drain is made of. They are values and no closures, since the definition of the walk is a list of them.
use crate::End;

#[derive(Clone, Copy)]
pub(crate) enum Part {
    // Takes at an end until its incoming way is empty.
    Pass(End),
    // Ticks until the poll that is outstanding is sent again; where none is, a poll.
    Ask,
    // A poll.
    Poll,
}
