// Serving: a line or a link stands, and answers commands until another is to stand or the input ends.
use crate::command::{Setup, Store, misplaced};
use crate::error::CommandError;
use crate::line_answer::line_answer;
use crate::link_answer::link_answer;
use crate::session::Session;
use crate::words::split_word;
use lines::{Blank, Line, LineRefusal, OctetLine, Record, TableLine};
use link::{Link, LinkRefusal};
use std::alloc::Global;
use std::io;

// A line's memory has room for the largest K: so many records a way, or 72 times as many octets.
const RECORDS: usize = 64;

const OCTETS: usize = 4608;

// What a command is told where nothing stands.
pub fn nothing_answer(_heap: Global, text: &[u8]) -> Result<String, CommandError> {
    let (name, _) = split_word(text);
    Err(misplaced(name).into())
}

// Serves while nothing stands.
pub fn serve_nothing(session: &mut Session) -> io::Result<Option<Setup>> {
    session.serve(nothing_answer)
}

// Serves over a line that was made, also where its check refused it: by itself, or under a link. Whether it can be made is
// told first: of the line's measures, then of the link over it.
fn serve_over<L: Line + Drop>(
    session: &mut Session,
    mut line: L,
    checked: Result<(), LineRefusal>,
    limit: Option<usize>,
) -> io::Result<Option<Setup>> {
    let checked = checked.map_err(LinkRefusal::from);
    match limit {
        None => {
            session.made(checked)?;
            session.serve(|heap, text| line_answer(heap, text, &mut line))
        }
        Some(limit) => {
            session.made(checked.and_then(|_| Link::check(&line, limit)))?;
            let mut link = Link::make(line, limit);
            session.serve(|heap, text| link_answer(heap, text, &mut link))
        }
    }
}

// Each store makes its own memory and its own type of line. (One function for both would take the blank, the check and the
// maker of each as parameters, and be no plainer.)
fn serve_table(session: &mut Session, setup: Setup) -> io::Result<Option<Setup>> {
    let mut one = [Record::blank(); RECORDS];
    let mut two = [Record::blank(); RECORDS];
    let checked = TableLine::check(setup.k, setup.d, RECORDS, RECORDS);
    let line = TableLine::make(setup.k, setup.d, &mut one, &mut two);
    serve_over(session, line, checked, setup.limit)
}

fn serve_octets(session: &mut Session, setup: Setup) -> io::Result<Option<Setup>> {
    let mut one = [0; OCTETS];
    let mut two = [0; OCTETS];
    let checked = OctetLine::check(setup.k, setup.d, OCTETS, OCTETS);
    let line = OctetLine::make(setup.k, setup.d, &mut one, &mut two);
    serve_over(session, line, checked, setup.limit)
}

// Serves while a line or a link stands.
pub fn serve(session: &mut Session, setup: Setup) -> io::Result<Option<Setup>> {
    match setup.store {
        Store::Table => serve_table(session, setup),
        Store::Octet => serve_octets(session, setup),
    }
}
