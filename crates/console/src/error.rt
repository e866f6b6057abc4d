// Why a command has no answer of its own: its line cannot be understood, what stands refuses it, or memory is not to be
// had.
use crate::answer::{error_text, numbered_text};
use crate::fault::Fault;
use lines::LineRefusal;
use link::LinkRefusal;
use std::alloc::{AllocError, Global};

#[derive(Debug, Drop)]
pub enum CommandError {
    Fault(Fault),
    Refused(LinkRefusal),
    Memory(AllocError),
}

impl CommandError {
    // What is written in place of an answer.
    pub fn text(self, heap: Global) -> Result<String, AllocError> {
        match self {
            CommandError::Fault(fault) => error_text(heap, fault),
            CommandError::Refused(refusal) => {
                numbered_text(heap, refusal.number(), refusal.word())
            }
            CommandError::Memory(error) => Err(error),
        }
    }
}

impl From<Fault> for CommandError {
    fn from(fault: Fault) -> CommandError {
        CommandError::Fault(fault)
    }
}

impl From<LineRefusal> for CommandError {
    fn from(refusal: LineRefusal) -> CommandError {
        CommandError::Refused(LinkRefusal::from(refusal))
    }
}

impl From<LinkRefusal> for CommandError {
    fn from(refusal: LinkRefusal) -> CommandError {
        CommandError::Refused(refusal)
    }
}

impl From<AllocError> for CommandError {
    fn from(error: AllocError) -> CommandError {
        CommandError::Memory(error)
    }
}
