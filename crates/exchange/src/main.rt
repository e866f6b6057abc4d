// An exchange from beginning to end: an older and a newer module exchange their keys over an octet line that is struck again
// and again, until the older may be pulled. With the argument `ladder`: the first connection, frame by frame.
#![tactic(auto)]

mod engine;
mod generator;
mod key;
mod ladder;
mod log;
mod said;
mod show;
mod side;
mod tally;
mod watched;

use lines::{Line, OctetLine};
use show::{show_exchange, show_ladder};
use std::process::ExitCode;
use std::{env, io};

const K: usize = 8;

const D: usize = 4;

const OCTETS: usize = 72 * K;

// Whether a ladder is asked for.
fn asked(rt: &HostRuntime) -> io::Result<bool> {
    let word = env::args(rt)?.nth(1);
    Ok(word.is_some_and(|word| word.as_str() == "ladder"))
}

fn over<L: Line + Drop>(rt: &HostRuntime, line: L) -> io::Result<bool> {
    if asked(rt)? {
        show_ladder(rt, line)
    } else {
        show_exchange(rt, line)
    }
}

fn run(rt: &HostRuntime) -> io::Result<bool> {
    let mut one = [0; OCTETS];
    let mut two = [0; OCTETS];
    over(rt, OctetLine::make(K, D, &mut one, &mut two))
}

// Ends with status 1 where the older module may not be pulled, or where writing failed, which is reported.
// (Written in each program, since two programs share no crate but the libraries.)
fn main(rt: HostRuntime) -> io::Result<ExitCode> {
    if run(&rt)? {
        Ok(ExitCode::SUCCESS)
    } else {
        Ok(ExitCode::FAILURE)
    }
}
