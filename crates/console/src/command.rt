// Commands: what a line of words asks for.
ghost use Rattle.std.specs.Prelude.{◌≡◌};
ghost use Rattle.console.specs.Words.{asks_nothing};
ghost use Rattle.console.specs.Turns.{parsed_nothing};

use crate::arguments::Arguments;
use crate::error::CommandError;
use crate::fault::Fault;
use frames::{Burst, Kind, Parts, Way};
use link::End;
use std::alloc::Global;

// A frame to write, or to put on a line, by its parts.
#[derive(Drop)]
pub struct Draft {
    pub way: Way,
    pub kind: Kind,
    pub ns: u8,
    pub nr: u8,
    pub b: u8,
    pub info: Vec<u8>,
}

impl Draft {
    pub fn parts(&self) -> Parts<'_> {
        Parts {
            kind: self.kind,
            ns: self.ns,
            nr: self.nr,
            b: self.b,
            info: self.info.as_slice(),
        }
    }
}

// A burst at the entry at a place of a way.
#[derive(Clone, Copy)]
pub struct Strike {
    pub way: Way,
    pub place: usize,
    pub burst: Burst,
}

// How a line keeps its entries.
#[derive(Clone, Copy)]
pub enum Store {
    Table,
    Octet,
}

// A line to stand, with K and D; or a link over such a line, with T.
#[derive(Clone, Copy)]
pub struct Setup {
    pub store: Store,
    pub k: usize,
    pub d: usize,
    pub limit: Option<usize>,
}

// What can be asked whatever stands.
#[derive(Drop)]
pub enum Command {
    Frame(FrameCommand),
    // Something new is to stand.
    Stand(Setup),
    // For what stands, if anything does.
    Other,
}

#[derive(Drop)]
pub enum FrameCommand {
    Read(Way, Vec<u8>),
    Write(Draft),
}

#[derive(Drop)]
pub enum LineCommand {
    Put(Draft),
    Take(Way),
    Strike(Strike),
    Tick,
    Count(Way),
}

#[derive(Drop)]
pub enum LinkCommand {
    Open,
    Close,
    Poll,
    Tick,
    Send(End, Vec<u8>),
    Fetch(End),
    Take(End),
    Strike(Strike),
    Drain,
    Ask,
}

// WAY KIND NS NR B HEX
fn parse_draft(heap: Global, words: &mut Arguments<'_>) -> Result<Draft, CommandError> {
    let way = words.way()?;
    let kind = words.kind()?;
    let ns = words.octet(Fault::Ns)?;
    let nr = words.octet(Fault::Nr)?;
    let b = words.octet(Fault::B)?;
    let info = words.octets(heap)?;
    Ok(Draft {
        way,
        kind,
        ns,
        nr,
        b,
        info,
    })
}

// WAY PLACE START MASK
fn parse_strike(words: &mut Arguments<'_>) -> Result<Strike, Fault> {
    let way = words.way()?;
    let place = words.number(Fault::Place)?;
    let start = words.number(Fault::Start)?;
    let mask = words.mask()?;
    let burst = Burst { start, mask };
    Ok(Strike { way, place, burst })
}

// table|octet
fn parse_store(words: &mut Arguments<'_>) -> Result<Store, Fault> {
    match words.word() {
        b"table" => Ok(Store::Table),
        b"octet" => Ok(Store::Octet),
        _ => Err(Fault::Store),
    }
}

// table|octet K D
fn line_setup(words: &mut Arguments<'_>) -> Result<Setup, Fault> {
    let store = parse_store(words)?;
    let k = words.number(Fault::K)?;
    let d = words.number(Fault::D)?;
    Ok(Setup {
        store,
        k,
        d,
        limit: None,
    })
}

// table|octet K D T
fn link_setup(words: &mut Arguments<'_>) -> Result<Setup, Fault> {
    let setup = line_setup(words)?;
    let limit = Some(words.number(Fault::T)?);
    Ok(Setup { limit, ..setup })
}

// The command of a line, none where the line is blank or a comment.
pub fn parse(heap: Global, text: &[u8]) -> Result<Option<Command>, CommandError>
    ensures { parsed_nothing result ≡ asks_nothing text.now }
{
    let mut words = Arguments::new(text);
    let command = match words.word() {
        [] | [b'#', ..] => return Ok(None),
        b"read" => {
            let way = words.way()?;
            Command::Frame(FrameCommand::Read(way, words.octets(heap)?))
        }
        b"write" => Command::Frame(FrameCommand::Write(parse_draft(heap, &mut words)?)),
        b"line" => Command::Stand(line_setup(&mut words)?),
        b"link" => Command::Stand(link_setup(&mut words)?),
        _ => return Ok(Some(Command::Other)),
    };
    words.done()?;
    Ok(Some(command))
}

// What is wrong where a command is not for what stands.
pub fn misplaced(name: &[u8]) -> Fault {
    match name {
        b"put" | b"count" => Fault::NoLine,
        b"open" | b"close" | b"poll" | b"drain" | b"send" | b"fetch" | b"ask" => Fault::NoLink,
        b"take" | b"strike" | b"tick" => Fault::Nothing,
        _ => Fault::Command,
    }
}

// The command of a line where a line stands.
pub fn parse_for_line(heap: Global, text: &[u8]) -> Result<LineCommand, CommandError> {
    let mut words = Arguments::new(text);
    let command = match words.word() {
        b"put" => LineCommand::Put(parse_draft(heap, &mut words)?),
        b"take" => LineCommand::Take(words.way()?),
        b"strike" => LineCommand::Strike(parse_strike(&mut words)?),
        b"tick" => LineCommand::Tick,
        b"count" => LineCommand::Count(words.way()?),
        name => return Err(misplaced(name).into()),
    };
    words.done()?;
    Ok(command)
}

// The command of a line where a link stands.
pub fn parse_for_link(heap: Global, text: &[u8]) -> Result<LinkCommand, CommandError> {
    let mut words = Arguments::new(text);
    let command = match words.word() {
        b"open" => LinkCommand::Open,
        b"close" => LinkCommand::Close,
        b"poll" => LinkCommand::Poll,
        b"tick" => LinkCommand::Tick,
        b"drain" => LinkCommand::Drain,
        b"ask" => LinkCommand::Ask,
        b"send" => {
            let end = words.end()?;
            LinkCommand::Send(end, words.octets(heap)?)
        }
        b"fetch" => LinkCommand::Fetch(words.end()?),
        b"take" => LinkCommand::Take(words.end()?),
        b"strike" => LinkCommand::Strike(parse_strike(&mut words)?),
        name => return Err(misplaced(name).into()),
    };
    words.done()?;
    Ok(command)
}
