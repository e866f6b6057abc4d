// The ladder: a line for each frame that was put, with the tick, an arrow along its way, and what became of it.
use crate::log::{Fate, Note};
use frames::{Kind, Way};
use std::alloc::{AllocError, Global};

// A frame by its kind and its numbers. (A String and no Display, since an arrow is filled up round text alone.)
fn label(heap: Global, note: &Note) -> Result<String, AllocError> {
    let Note {
        kind,
        ns,
        nr,
        b,
        length,
        ..
    } = *note;
    match kind {
        Kind::I => format!(in heap; " I N(S)={ns} N(R)={nr} B={b}, {length} octets "),
        Kind::Rr => format!(in heap; " RR N(R)={nr} B={b} "),
        Kind::Rnr => format!(in heap; " RNR N(R)={nr} B={b} "),
        Kind::Sarm => String::from_str(heap, " SARM "),
        Kind::Disc => String::from_str(heap, " DISC "),
        Kind::Ua => String::from_str(heap, " UA "),
        Kind::Dm => String::from_str(heap, " DM "),
    }
}

// Why a frame did not arrive.
fn mishap(note: &Note) -> Option<&'static str> {
    if note.struck {
        return Some("struck");
    }
    match note.fate {
        Fate::Taken => None,
        Fate::Aged => Some("left the line by its age"),
        Fate::Lost => Some("found no room"),
        Fate::Stands => Some("still on the line"),
    }
}

// The two ends of an arrow: its head is a cross where the frame did not arrive.
fn arrow(way: Way, arrived: bool) -> (&'static str, &'static str) {
    match (way, arrived) {
        (Way::One, true) => ("|-", "->|"),
        (Way::One, false) => ("|-", "-x|"),
        (Way::Two, true) => ("|<-", "-|"),
        (Way::Two, false) => ("|x-", "-|"),
    }
}

// A line for a frame.
pub fn rung(heap: Global, note: &Note) -> Result<String, AllocError> {
    let tick = note.tick;
    let label = label(heap, note)?;
    let mishap = mishap(note);
    let (from, to) = arrow(note.way, mishap.is_none());
    match mishap {
        None => format!(in heap; "{tick:>4}  {from}{label:-^36}{to}\n"),
        Some(mishap) => format!(in heap; "{tick:>4}  {from}{label:-^36}{to}  {mishap}\n"),
    }
}
