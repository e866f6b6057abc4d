// A console: reads commands, one a line, and writes one line for each.
#![tactic(auto)]

mod answer;
mod arguments;
mod command;
mod decimal;
mod error;
mod fault;
mod line_answer;
mod link_answer;
mod octets;
mod serve;
mod session;
mod shown;
#[cfg(test)]
mod tests;
mod words;

use serve::{serve, serve_nothing};
use session::Session;
use std::io;
use std::process::ExitCode;

// Answers every line of standard input, and tells whether all were understood.
fn run(rt: &HostRuntime) -> io::Result<bool> {
    let mut session = Session::new(rt)?;
    let mut wanted = serve_nothing(&mut session)?;
    // A bounded loop, since of a `while let` there would be no proof that it ends.
    for _ in 0..u64::MAX {
        let Some(setup) = wanted else {
            break;
        };
        wanted = serve(&mut session, setup)?;
    }
    Ok(session.understood())
}

// Ends with status 1 where a line was not understood, or where reading or writing failed, which is reported.
// (Written in each program, since two programs share no crate but the libraries.)
fn main(rt: HostRuntime) -> io::Result<ExitCode> {
    if run(&rt)? {
        Ok(ExitCode::SUCCESS)
    } else {
        Ok(ExitCode::FAILURE)
    }
}
