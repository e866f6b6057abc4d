// What the program shows: the exchange, or its first connection as a ladder.
use crate::engine::{Plan, Unit};
use crate::ladder::rung;
use crate::log::Log;
use crate::said::Answer;
use crate::watched::Watched;
use lines::Line;
use link::Link;
use std::io;

const FIRST: Plan = Plan {
    older: 12,
    newer: 5,
};

// The keys that each connection carries.
const PLANS: [Plan; 3] = [
    FIRST,
    Plan {
        older: 70,
        newer: 25,
    },
    Plan {
        older: 68,
        newer: 30,
    },
];

// The poll timer.
const T: usize = 9;

// Makes the connections of the plans one after the other and shows them; tells whether each was whole.
fn show_connections<L: Line>(
    rt: &HostRuntime,
    unit: &mut Unit,
    link: &mut Link<L>,
) -> io::Result<bool> {
    let mut whole = true;
    for (n, plan) in (1usize..).zip(PLANS) {
        let connection = unit.connect(link, plan)?;
        print!(rt; "connection {n}: {connection}")?;
        whole = whole && connection.whole;
    }
    Ok(whole)
}

// Shows the exchange over a line. The older module may be pulled where each connection was whole, and each key was accepted,
// fetched and is equal.
pub fn show_exchange<L: Line + Drop>(rt: &HostRuntime, line: L) -> io::Result<bool> {
    let mut link = Link::make(line, T);
    let mut unit = Unit::new(rt.alloc())?;
    let whole = show_connections(rt, &mut unit, &mut link)?;
    let may = whole && unit.carried();
    // One write for both lines.
    print!(rt;
        "in all: {}\nthe older module may be pulled: {}\n",
        unit.tally,
        Answer(may)
    )?;
    Ok(may)
}

// The first connection of the same exchange, and whether it was whole; the line is watched.
fn watch<L: Line + Drop>(rt: &HostRuntime, line: L, log: &mut Log) -> io::Result<bool> {
    let mut link = Link::make(Watched::new(line, log), T);
    let mut unit = Unit::new(rt.alloc())?;
    let connection = unit.connect(&mut link, FIRST)?;
    Ok(connection.whole)
}

fn draw(rt: &HostRuntime, log: &Log) -> io::Result<()> {
    println!(rt; "tick  older module                 newer module")?;
    for note in log.notes() {
        let text = rung(rt.alloc(), note)?;
        print!(rt; "{text}")?;
    }
    Ok(())
}

// Shows the first connection as a ladder.
pub fn show_ladder<L: Line + Drop>(rt: &HostRuntime, line: L) -> io::Result<bool> {
    let mut log = Log::new(rt.alloc())?;
    let whole = watch(rt, line, &mut log)?;
    draw(rt, &log)?;
    Ok(whole)
}
