// Fifteen small cases of the rules, played and shown: for each its number, and whether it comes out as the rules say.
// K = 8, D = 2 and T = 5 throughout. A case of a line or a link is played over both kinds of line.
#![tactic(auto)]

mod answers;
mod both;
mod frame_rows;
mod line_rows;
mod link_rows;

use both::over_both_lines;
use frame_rows::*;
use line_rows::*;
use link_rows::*;
use std::io;
use std::process::ExitCode;

// Whether each case comes out, in the order of their numbers.
fn played() -> [bool; 15] {
    [
        sarm_on_way_one(),
        dm_on_way_two(),
        on_both_ways(numbers_of_a_block),
        on_both_ways(numbers_of_a_status),
        on_both_ways(no_such_control),
        over_both_lines::<PollTimer>(),
        over_both_lines::<LastStrike>(),
        over_both_lines::<ThirdTick>(),
        over_both_lines::<AsksAgain>(),
        over_both_lines::<FullWindow>(),
        over_both_lines::<Drains>(),
        over_both_lines::<FarBusy>(),
        over_both_lines::<NinthBlock>(),
        over_both_lines::<LongestBlock>(),
        on_both_ways(short_and_long),
    ]
}

// Shows every case, and tells whether all are as they should be.
fn run(rt: &HostRuntime) -> io::Result<bool> {
    let rows = played();
    for (n, good) in (1..=15).zip(&rows) {
        let word = if *good { "ok" } else { "bad" };
        println!(rt; "{n} {word}")?;
    }
    Ok(rows.iter().all(|good| *good))
}

// Ends with status 1 where a case is bad, or where writing failed, which is reported.
// (Written in each program, since two programs share no crate but the libraries.)
fn main(rt: HostRuntime) -> io::Result<ExitCode> {
    if run(&rt)? {
        Ok(ExitCode::SUCCESS)
    } else {
        Ok(ExitCode::FAILURE)
    }
}
