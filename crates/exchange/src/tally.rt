// What was done on a link, counted.
use link::LinkRefusal;
use stations::Counts;
use std::fmt;
use std::num::Saturating;

#[derive(Clone, Copy, Default)]
pub struct Tally {
    pub put: Saturating<usize>,
    pub lost: Saturating<usize>,
    pub strikes: Saturating<usize>,
    pub ticks: Saturating<usize>,
    pub polls: Saturating<usize>,
    pub drains: Saturating<usize>,
}

impl Tally {
    // The frames of a granted call.
    pub fn frames(&mut self, counts: Counts) {
        self.put += counts.put;
        self.lost += counts.lost;
    }

    // The frames of a call, and whether it was granted.
    pub fn granted(&mut self, answer: Result<Counts, LinkRefusal>) -> bool {
        let Ok(counts) = answer else {
            return false;
        };
        self.frames(counts);
        true
    }
}

impl fmt::Display for Tally {
    fn fmt<W: fmt::Write>(&self, f: &mut fmt::Formatter<W>) -> fmt::Result {
        let Tally {
            put,
            lost,
            strikes,
            ticks,
            polls,
            drains,
        } = *self;
        write!(
            f,
            "{put} frames put, {lost} lost for want of room, {strikes} struck; {ticks} ticks, {polls} polls, {drains} drains"
        )
    }
}
