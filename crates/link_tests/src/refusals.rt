// Every refusal of the link and of the stations, in the order that the calls look for them.
use crate::answers::*;
use frames::{Block, FrameBuf, Kind, Parts, Way};
use lines::{Blank, Line, Record, TableLine};
use link::{Call, End, Link, LinkRefusal};
use stations::{Mode, Primary, SecondaryMode, StationRefusal};
use std::process::Abort;
use std::test::Fail;

// Each kind of call once.
fn each() -> [Call; 8] {
    [
        Call::Open,
        Call::Close,
        Call::Poll,
        Call::Tick,
        send(End::Primary, 1),
        Call::Take(End::Secondary),
        Call::Fetch(End::Primary),
        Call::Strike(Way::One, 0, burst(0, 1)),
    ]
}

// Every call answers this number and alters nothing; the questions are answered.
fn unsound<L: Line>(rt: &impl Abort, link: &mut Link<L>, number: u8, entries: usize) {
    for call in each() {
        same(rt, refusal(ask(link, call)), Some(number));
    }
    same(rt, link.primary_mode(), Mode::Closed);
    same(rt, link.secondary_mode(), SecondaryMode::Closed);
    same(rt, link.outstanding(End::Primary), 0);
    same(rt, link.waiting(End::Secondary), 0);
    same(rt, link.entries(Way::One), 0);
    same(rt, link.entries(Way::Two), entries);
}

// K 7 makes a dead line, which holds nothing; the others hold a frame, and timer comes before in use.
#[test]
fn timer_before_all_else(rt: HostRuntime) {
    for (k, limit, entries) in [(7, 5, 0), (8, 4, 1), (8, 10001, 1), (8, 0, 1)] {
        let mut one = [Record::blank(); 8];
        let mut two = [Record::blank(); 8];
        let mut line = TableLine::make(k, 2, &mut one, &mut two);
        let _ = line.put(Way::Two, Parts::plain(Kind::Ua));
        assert_eq!(rt; Link::check(&line, limit), Err(LinkRefusal::Timer));
        unsound(&rt, &mut Link::make(line, limit), 16, entries);
    }
}

#[test]
fn in_use_before_all_else(rt: HostRuntime) {
    for limit in [5, 10000] {
        let mut one = [Record::blank(); 8];
        let mut two = [Record::blank(); 8];
        let mut line = TableLine::make(8, 2, &mut one, &mut two);
        assert_eq!(rt; Link::check(&line, limit), Ok(()));
        assert!(rt; line.put(Way::Two, Parts::plain(Kind::Ua)).is_ok());
        assert_eq!(rt; Link::check(&line, limit), Err(LinkRefusal::InUse));
        unsound(&rt, &mut Link::make(line, limit), 17, 1);
    }
}

// What a closed link refuses: mode comes before a long block.
fn closed<L: Line>(rt: &impl Abort, link: &mut Link<L>) {
    same(rt, refusal(link.send(End::Secondary, &[0; 65])), Some(18));
    same(rt, refusal(link.close()), Some(18));
    same(rt, refusal(link.poll()), Some(18));
    same(rt, refusal(link.send(End::Primary, &[1])), Some(18));
    same(rt, refusal(link.take(End::Primary)), Some(9));
    same(rt, refusal(fetch(link, End::Primary)), Some(23));
    same(
        rt,
        refusal(link.strike(Way::One, 0, burst(17, 0))),
        Some(11),
    );
    same(rt, link.open(), puts(1));
    same(rt, refusal(link.open()), Some(18));
    same(
        rt,
        refusal(link.strike(Way::One, 0, burst(17, 0))),
        Some(13),
    );
    same(
        rt,
        refusal(link.strike(Way::One, 0, burst(17, 1))),
        Some(14),
    );
    same(rt, link.strike(Way::One, 0, burst(16, 1)), puts(0));
    same(
        rt,
        refusal(link.strike(Way::One, 0, burst(17, 0))),
        Some(12),
    );
    same(rt, refusal(link.take(End::Secondary)), Some(10));
}

#[test]
fn refusals_of_a_closed_link(rt: HostRuntime) {
    on_a_link(|link| closed(&rt, link));
}

// What an open link refuses. The secondary's queue and the primary's window are full, so that window comes before far
// busy, and a long block before both.
fn open<L: Line>(rt: &impl Abort, link: &mut Link<L>) {
    opened(rt, link);
    sends(rt, link, End::Primary, 7);
    takes(rt, link, End::Secondary, 7, block_heard(0, true));
    same(rt, link.poll(), puts(1));
    same(rt, refusal(link.poll()), Some(22));
    same(rt, refusal(link.close()), Some(22));
    same(rt, refusal(link.open()), Some(18));
    same(rt, link.take(End::Secondary), heeds(1, 0));
    same(rt, refusal(link.send(End::Primary, &[1])), Some(20));
    same(rt, link.take(End::Primary), heeds(0, 7));
    same(rt, refusal(link.send(End::Primary, &[1])), Some(21));
    same(rt, refusal(link.send(End::Primary, &[0; 65])), Some(19));
    sends(rt, link, End::Secondary, 7);
    same(rt, refusal(link.send(End::Secondary, &[0; 65])), Some(19));
    same(rt, refusal(link.send(End::Secondary, &[1])), Some(20));
}

#[test]
fn refusals_of_an_open_link(rt: HostRuntime) {
    on_a_link(|link| open(&rt, link));
}

// RR or RNR from the secondary with this N(R). (A literal, since it cannot fail as a conversion of parts can.)
fn status(kind: Kind, nr: u8) -> FrameBuf {
    FrameBuf {
        kind,
        ns: 0,
        nr,
        b: 0,
        block: Block::empty(),
    }
}

// An N(R) beyond V(S) is refused with numbering, and the far status stays: a send is still granted.
fn beyond<L: Line>(rt: &impl Abort, primary: &mut Primary, line: &mut L) -> Result<(), Fail> {
    let _ = primary.open(line)?;
    let _ = primary.hear(status(Kind::Ua, 0), line)?;
    let _ = primary.send(&[1], line)?;
    let refused = primary.hear(status(Kind::Rnr, 2), line);
    same(rt, refused, Err(StationRefusal::Numbering));
    same(rt, StationRefusal::Numbering.number(), 24);
    same(rt, primary.outstanding(), 1);
    let _ = primary.send(&[2], line)?;
    let heard = primary.hear(status(Kind::Rnr, 2), line)?;
    same(rt, heard.acknowledged, 2);
    let busy = primary.send(&[3], line);
    same(rt, busy, Err(StationRefusal::FarBusy));
    Ok(())
}

#[test]
fn numbering(rt: HostRuntime) -> Result<(), Fail> {
    let mut one = [Record::blank(); 8];
    let mut two = [Record::blank(); 8];
    let mut line = TableLine::make(8, 2, &mut one, &mut two);
    beyond(&rt, &mut Primary::new(), &mut line)
}
