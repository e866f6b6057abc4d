// What a link answers, and what most tests begin with.
ghost use Rattle.std.specs.Prelude.{◌≡◌};

use frames::{Block, Burst};
use lines::{Blank, Line, Record, TableLine};
use link::{Call, End, Link, LinkRefusal};
use stations::{Counts, Taken};
use std::fmt::Debug;
use std::process::Abort;

// These and `heeds` stand in the program that plays cases too: it and the tests share no crate but the libraries.

// So many frames are put, and none is lost.
pub(crate) fn puts(put: usize) -> Result<Counts, LinkRefusal> {
    Ok(Counts { put, lost: 0 })
}

// A frame is heeded; the answers to it are so many frames, so many blocks are acknowledged, none is taken in.
pub(crate) fn heeds(put: usize, acknowledged: usize) -> Result<Taken, LinkRefusal> {
    Ok(Taken {
        counts: Counts { put, lost: 0 },
        acknowledged,
        taken: false,
        passed: false,
    })
}

// An I frame that acknowledges so many blocks, and whether its block is taken in.
pub(crate) fn block_heard(acknowledged: usize, taken: bool) -> Result<Taken, LinkRefusal> {
    Ok(Taken {
        counts: Counts { put: 0, lost: 0 },
        acknowledged,
        taken,
        passed: false,
    })
}

// A frame is passed over.
pub(crate) fn passes() -> Result<Taken, LinkRefusal> {
    Ok(Taken {
        counts: Counts { put: 0, lost: 0 },
        acknowledged: 0,
        taken: false,
        passed: true,
    })
}

// The number of the refusal, where a call was refused.
pub(crate) fn refusal<T: Drop>(answer: Result<T, LinkRefusal>) -> Option<u8> {
    answer.err().map(LinkRefusal::number)
}

// The length of a block that is fetched.
pub(crate) fn fetch<L: Line>(link: &mut Link<L>, end: End) -> Result<usize, LinkRefusal> {
    link.fetch(end, &mut [0; 64]).map(|fetched| fetched.length)
}

pub(crate) fn burst(start: usize, mask: u16) -> Burst {
    Burst { start, mask }
}

// A send of a block of this one octet.
pub(crate) fn send(end: End, octet: u8) -> Call {
    Call::Send(end, Block::of(&[octet]).unwrap())
}

// One call of a list, and the frames that it put and lost. A value, since these calls are what `play` takes.
pub(crate) fn ask<L: Line>(link: &mut Link<L>, call: Call) -> Result<Counts, LinkRefusal> {
    match call {
        Call::Open => link.open(),
        Call::Close => link.close(),
        Call::Poll => link.poll(),
        Call::Tick => link.tick(),
        Call::Send(end, block) => link.send(end, block.octets()),
        Call::Take(end) => link.take(end).map(|taken| taken.counts),
        Call::Fetch(end) => link.fetch(end, &mut [0; 64]).map(|fetched| fetched.counts),
        Call::Strike(way, place, burst) => link.strike(way, place, burst),
    }
}

// An assertion of a long test as one call: written out in each row, it takes the proof four times as long.
pub(crate) fn same<T: PartialEq + Debug + Drop>(rt: &impl Abort, answer: T, expected: T) {
    assert_eq!(rt; answer, expected);
}

// Three functions, and no `repeat` that takes a closure: tried, and it takes the proof twice as long.

// So many ticks, each of which puts nothing.
pub(crate) fn ticks<L: Line>(rt: &impl Abort, link: &mut Link<L>, times: usize) {
    for _ in 0..times {
        assert_eq!(rt; link.tick(), puts(0));
    }
}

// So many sends of a block of the octet 1, each of which puts one frame.
pub(crate) fn sends<L: Line>(rt: &impl Abort, link: &mut Link<L>, end: End, times: usize) {
    for _ in 0..times {
        assert_eq!(rt; link.send(end, &[1]), puts(1));
    }
}

// So many takes at an end, each with this answer.
pub(crate) fn takes<L: Line>(
    rt: &impl Abort,
    link: &mut Link<L>,
    end: End,
    times: usize,
    expected: Result<Taken, LinkRefusal>,
) {
    for _ in 0..times {
        assert_eq!(rt; link.take(end), expected);
    }
}

// Opens the link with no frame lost.
pub(crate) fn opened<L: Line>(rt: &impl Abort, link: &mut Link<L>) {
    same(rt, link.open(), puts(1));
    same(rt, link.take(End::Secondary), heeds(1, 0));
    same(rt, link.take(End::Primary), heeds(0, 0));
}

// A new link over a table line of this memory.
pub(crate) fn table_link<'a, 'b>(
    one: &'a mut [Record; 8],
    two: &'b mut [Record; 8],
) -> Link<TableLine<'a, 'b>> {
    Link::make(TableLine::make(8, 2, one, two), 5)
}

// What a test answers that is given a new link over a table line.
pub(crate) fn on_a_link<R, F>(test: F) -> R
where
    F: FnOnce(&mut Link<TableLine<'_, '_>>) -> R,
    requires { F.IsAlwaysCallable test }
{
    let mut one = [Record::blank(); 8];
    let mut two = [Record::blank(); 8];
    test(&mut table_link(&mut one, &mut two))
}
