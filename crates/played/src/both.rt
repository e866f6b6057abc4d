// Cases over both kinds of line: each time over a new line of K = 8 and D = 2.
use lines::{Blank, Line, OctetLine, Record, TableLine};

const K: usize = 8;

const D: usize = 2;

const OCTETS: usize = 72 * K;

// A case that can be played over every line. (A closure would be of one kind of line alone.)
pub trait Case {
    // Whether it comes out as it should over a new line.
    fn holds<L: Line + Drop>(line: L) -> bool;
}

// The memory and the line of each kind have types of their own, so one function cannot make both.
fn over_table<C: Case>() -> bool {
    let mut one = [Record::blank(); K];
    let mut two = [Record::blank(); K];
    C::holds(TableLine::make(K, D, &mut one, &mut two))
}

fn over_octets<C: Case>() -> bool {
    let mut one = [0; OCTETS];
    let mut two = [0; OCTETS];
    C::holds(OctetLine::make(K, D, &mut one, &mut two))
}

// Whether a case comes out as it should over the table line and over the octet line.
pub fn over_both_lines<C: Case>() -> bool {
    over_table::<C>() && over_octets::<C>()
}
