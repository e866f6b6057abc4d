// Answers: the one line that the console writes for a command.
ghost use Rattle.std.specs.Prelude.{◌≡◌, true, IfOk, string_bytes};
ghost use Rattle.frames.specs.Parts.{given};
ghost use Rattle.frames.specs.Reader.{read_answer};
ghost use Rattle.frames.specs.Writer.{frame_octets};
ghost use Rattle.console.specs.Faults.{words_of};
ghost use Rattle.console.specs.Words.{asks_nothing};
ghost use Rattle.console.specs.Turns.{silent, written};
ghost use Rattle.console.specs.Answers.{octets_text, error_text, numbered_text, frame_text, refusal_text, read_text, write_text};

use crate::command::{Command, FrameCommand, Setup, parse};
use crate::error::CommandError;
use crate::fault::Fault;
use crate::octets;
use frames::{FrameRefusal, Kind, Parts, Way};
use std::alloc::{AllocError, Global};

// A frame's octets at most: two in front of the information, 64 of information, two behind.
const LONGEST: usize = 68;

// A frame by its parts.
pub fn frame_text(heap: Global, frame: Parts<'_>) -> Result<String, AllocError>
    ensures { IfOk result (λ t. string_bytes t ≡ frame_text (given frame.entry)) }
{
    let Parts {
        kind,
        ns,
        nr,
        b,
        info,
    } = frame;
    match kind {
        Kind::I => {
            let info = octets::text(heap, info)?;
            format!(in heap; "frame I ns={ns} nr={nr} b={b} info={info}\n")
        }
        Kind::Rr => format!(in heap; "frame RR nr={nr} b={b}\n"),
        Kind::Rnr => format!(in heap; "frame RNR nr={nr} b={b}\n"),
        Kind::Sarm => String::from_str(heap, "frame SARM\n"),
        Kind::Disc => String::from_str(heap, "frame DISC\n"),
        Kind::Ua => String::from_str(heap, "frame UA\n"),
        Kind::Dm => String::from_str(heap, "frame DM\n"),
    }
}

// A refusal by its number and its word.
pub fn numbered_text(heap: Global, number: u8, word: &str) -> Result<String, AllocError>
    ensures { IfOk result (λ t. string_bytes t ≡ numbered_text number word.now) }
{
    format!(in heap; "refused {number} {word}\n")
}

fn refusal_text(heap: Global, refusal: FrameRefusal) -> Result<String, AllocError>
    ensures { IfOk result (λ t. string_bytes t ≡ refusal_text refusal) }
{
    numbered_text(heap, refusal.number(), refusal.word())
}

fn read_text(heap: Global, way: Way, octets: &[u8]) -> Result<String, AllocError>
    ensures { IfOk result (λ t. string_bytes t ≡ read_text (read_answer way octets.now)) }
{
    match frames::read(way, octets) {
        Ok(frame) => frame_text(heap, Parts::from(frame)),
        Err(refusal) => refusal_text(heap, refusal),
    }
}

fn octets_text(heap: Global, octets: &[u8]) -> Result<String, AllocError>
    ensures { IfOk result (λ t. string_bytes t ≡ octets_text octets.now) }
{
    let text = octets::text(heap, octets)?;
    format!(in heap; "octets {text}\n")
}

fn write_text(heap: Global, way: Way, frame: Parts<'_>) -> Result<String, AllocError>
    ensures { IfOk result (λ t. string_bytes t ≡ write_text (frame_octets way (given frame.entry))) }
{
    let mut octets = [0; LONGEST];
    match frames::write(way, frame, &mut octets) {
        Ok(len) => octets_text(heap, &octets[..len]),
        Err(refusal) => refusal_text(heap, refusal),
    }
}

// What is wrong with a line that cannot be understood.
pub fn error_text(heap: Global, fault: Fault) -> Result<String, AllocError>
    ensures { IfOk result (λ t. string_bytes t ≡ error_text (words_of fault)) }
{
    format!(in heap; "error: {fault}\n")
}

// The answer to a command that asks for a frame's octets or its parts.
fn frame_answer(heap: Global, command: FrameCommand) -> Result<String, AllocError> {
    match command {
        FrameCommand::Read(way, octets) => read_text(heap, way, octets.as_slice()),
        FrameCommand::Write(draft) => write_text(heap, draft.way, draft.parts()),
    }
}

// What a line comes to.
#[derive(Drop)]
pub enum Turn {
    // Nothing is written, for a blank line or a comment.
    Silent,
    // The answer to a command.
    Answer(String),
    // What is wrong with a line that cannot be understood.
    Error(String),
    // Something new is to stand.
    Stand(Setup),
    // The line is for what stands.
    Other,
}

// What is written for an answer, or in place of one.
pub fn told(heap: Global, answer: Result<String, CommandError>) -> Result<Turn, AllocError>
    ensures { IfOk result (λ t. written t ≡ true) }
{
    let fault = matches!(&answer, Err(CommandError::Fault(_)));
    let text = match answer {
        Ok(text) => text,
        Err(error) => error.text(heap)?,
    };
    Ok(if fault {
        Turn::Error(text)
    } else {
        Turn::Answer(text)
    })
}

// What a line comes to, whatever stands. The session and the tests take a line apart by this one function.
pub fn turn_of(heap: Global, text: &[u8]) -> Result<Turn, AllocError>
    ensures { IfOk result (λ t. silent t ≡ asks_nothing text.now) }
{
    match parse(heap, text) {
        Ok(None) => Ok(Turn::Silent),
        Ok(Some(Command::Frame(command))) => Ok(Turn::Answer(frame_answer(heap, command)?)),
        Ok(Some(Command::Stand(setup))) => Ok(Turn::Stand(setup)),
        Ok(Some(Command::Other)) => Ok(Turn::Other),
        Err(error) => told(heap, Err(error)),
    }
}
