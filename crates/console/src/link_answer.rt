// Answers of a link that stands.
use crate::command::{LinkCommand, parse_for_link};
use crate::error::CommandError;
use crate::octets;
use crate::shown::Shown;
use frames::Way;
use lines::Line;
use link::{End, Link};
use std::alloc::{AllocError, Global};
use std::fmt;

// The answer of a call that was granted.
fn ok_text(heap: Global, answer: impl fmt::Display + Drop) -> Result<String, AllocError> {
    format!(in heap; "ok {answer}\n")
}

fn fetch<L: Line>(heap: Global, link: &mut Link<L>, end: End) -> Result<String, CommandError> {
    let mut place = [0; 64];
    let fetched = link.fetch(end, &mut place)?;
    let counts = Shown(fetched.counts);
    let length = fetched.length;
    let block = octets::text(heap, place.get(..length).unwrap_or(&place))?;
    Ok(format!(in heap; "ok {counts} length={length} block={block}\n")?)
}

// The blocks of an end that are outstanding and waiting.
fn blocks_text<L: Line>(heap: Global, link: &Link<L>, end: End) -> Result<String, AllocError> {
    let outstanding = link.outstanding(end);
    let waiting = link.waiting(end);
    format!(in heap; "outstanding={outstanding} waiting={waiting}")
}

fn ask<L: Line>(heap: Global, link: &Link<L>) -> Result<String, AllocError> {
    let primary = Shown(link.primary_mode());
    let secondary = Shown(link.secondary_mode());
    let primary_blocks = blocks_text(heap, link, End::Primary)?;
    let secondary_blocks = blocks_text(heap, link, End::Secondary)?;
    let one = link.entries(Way::One);
    let two = link.entries(Way::Two);
    format!(in heap;
        "primary {primary} {primary_blocks} secondary {secondary} {secondary_blocks} way1={one} way2={two}\n"
    )
}

// The answer to a line of words that is for a link.
pub fn link_answer<L: Line>(
    heap: Global,
    text: &[u8],
    link: &mut Link<L>,
) -> Result<String, CommandError> {
    let counts = match parse_for_link(heap, text)? {
        LinkCommand::Open => link.open()?,
        LinkCommand::Close => link.close()?,
        LinkCommand::Poll => link.poll()?,
        LinkCommand::Tick => link.tick()?,
        LinkCommand::Send(end, octets) => link.send(end, octets.as_slice())?,
        LinkCommand::Strike(strike) => link.strike(strike.way, strike.place, strike.burst)?,
        LinkCommand::Fetch(end) => return fetch(heap, link, end),
        LinkCommand::Take(end) => return Ok(ok_text(heap, Shown(link.take(end)?))?),
        LinkCommand::Drain => return Ok(ok_text(heap, Shown(link.drain()?))?),
        LinkCommand::Ask => return Ok(ask(heap, link)?),
    };
    Ok(ok_text(heap, Shown(counts))?)
}
