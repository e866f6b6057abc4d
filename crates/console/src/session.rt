// A session: where commands are read from and answers are written to.
use crate::answer::{Turn, told, turn_of};
use crate::command::Setup;
use crate::error::CommandError;
use link::LinkRefusal;
use std::alloc::Global;
use std::io;
use std::io::{BufRead, BufReader, Stdin, Stdout, Write};

// Where answers are written to, and whether every line so far was understood.
#[derive(Drop)]
pub struct Replies {
    heap: Global,
    output: Stdout,
    understood: bool,
}

#[derive(Drop)]
pub struct Session {
    input: BufReader<Stdin>,
    // The line that was read last. Its memory serves every line.
    line: Vec<u8>,
    replies: Replies,
}

fn made_text(heap: Global, made: Result<(), LinkRefusal>) -> Result<String, CommandError> {
    made?;
    Ok(String::from_str(heap, "made\n")?)
}

impl Replies {
    // Writes a text by itself, so that a person at a terminal sees it at once.
    fn write(&mut self, text: &String) -> io::Result<()> {
        self.output.write_all(text.as_bytes())?;
        self.output.flush()
    }

    // Writes what a line came to, if that is a text.
    fn show(&mut self, turn: Turn) -> io::Result<()> {
        match turn {
            Turn::Answer(text) => self.write(&text),
            Turn::Error(text) => {
                self.understood = false;
                self.write(&text)
            }
            Turn::Silent | Turn::Stand(_) | Turn::Other => Ok(()),
        }
    }
}

impl Session {
    pub fn new(rt: &HostRuntime) -> io::Result<Session> {
        Ok(Session {
            input: BufReader::new(rt.alloc(), rt.stdin())?,
            line: Vec::new(rt.alloc()),
            replies: Replies {
                heap: rt.alloc(),
                output: rt.stdout(),
                understood: true,
            },
        })
    }

    // Whether every line so far was understood.
    pub fn understood(&self) -> bool {
        self.replies.understood
    }

    // Tells whether what was asked for was made.
    pub fn made(&mut self, made: Result<(), LinkRefusal>) -> io::Result<()> {
        let heap = self.replies.heap;
        self.replies.show(told(heap, made_text(heap, made))?)
    }

    // Reads the next line, and tells whether there was one.
    fn read(&mut self) -> io::Result<bool> {
        self.line.clear();
        Ok(self.input.read_until(b'\n', &mut self.line)? != 0)
    }

    // Answers line after line, until something new is to stand or the input ends. What stands answers the commands that
    // are for it.
    pub fn serve<F>(&mut self, mut standing: F) -> io::Result<Option<Setup>>
    where
        F: FnMut(Global, &[u8]) -> Result<String, CommandError>,
        requires { F.IsAlwaysCallable standing }
    {
        let heap = self.replies.heap;
        // No `for` over `split`: that takes new memory for each line.
        for _ in 0..u64::MAX {
            if !self.read()? {
                break;
            }
            let text = self.line.as_slice();
            let turn = match turn_of(heap, text)? {
                Turn::Silent => continue,
                Turn::Stand(setup) => return Ok(Some(setup)),
                Turn::Other => told(heap, standing(heap, text))?,
                turn => turn,
            };
            self.replies.show(turn)?;
        }
        Ok(None)
    }
}
