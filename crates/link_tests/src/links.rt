// What a fetch writes, and where a list of calls leads.
use crate::answers::*;
use frames::Way;
use lines::{Blank, Line, Record};
use link::{Call, End, Link};
use std::process::Abort;
use std::test::Fail;

// Blocks come out in the order they were sent; the octets behind a block keep their content, and so does the place at a
// refusal.
fn fetches<L: Line>(rt: &impl Abort, link: &mut Link<L>) -> Result<(), Fail> {
    opened(rt, link);
    let mut place = [0xaa; 64];
    let _ = link.send(End::Secondary, &[1, 2, 3])?;
    let _ = link.send(End::Secondary, &[])?;
    let _ = link.send(End::Secondary, &[4; 64])?;
    takes(rt, link, End::Primary, 3, block_heard(0, true));
    let mut expected = [0xaa; 64];
    expected[0] = 1;
    expected[1] = 2;
    expected[2] = 3;
    same(rt, link.fetch(End::Primary, &mut place)?.length, 3);
    assert!(rt; place == expected);
    same(rt, link.fetch(End::Primary, &mut place)?.length, 0);
    assert!(rt; place == expected);
    same(rt, link.fetch(End::Primary, &mut place)?.length, 64);
    assert!(rt; place == [4; 64]);
    assert!(rt; link.fetch(End::Primary, &mut place).is_err());
    assert!(rt; place == [4; 64]);
    Ok(())
}

#[test]
fn fetch_leaves_the_octets_behind(rt: HostRuntime) -> Result<(), Fail> {
    on_a_link(|link| fetches(&rt, link))
}

// What the questions answer is the same at both links.
fn alike<L: Line>(rt: &impl Abort, link: &Link<L>, other: &Link<L>) {
    same(rt, link.primary_mode(), other.primary_mode());
    same(rt, link.secondary_mode(), other.secondary_mode());
    for end in [End::Primary, End::Secondary] {
        same(rt, link.outstanding(end), other.outstanding(end));
        same(rt, link.waiting(end), other.waiting(end));
    }
    for way in [Way::One, Way::Two] {
        same(rt, link.entries(way), other.entries(way));
    }
}

// One link plays the list, the other makes its calls one by one.
fn led<L: Line>(rt: &impl Abort, link: &mut Link<L>, other: &mut Link<L>, calls: &[Call]) {
    link.play(calls);
    for call in calls {
        let _ = ask(other, *call);
    }
    alike(rt, link, other);
}

#[test]
fn play_leads_where_calls_lead(rt: HostRuntime) {
    let lists: [&[Call]; 6] = [
        &[Call::Poll, Call::Open, Call::Tick],
        &[Call::Take(End::Secondary), Call::Take(End::Primary)],
        &[send(End::Primary, 1), send(End::Secondary, 2), Call::Poll],
        &[
            Call::Strike(Way::One, 0, burst(0, 1)),
            Call::Take(End::Secondary),
            Call::Take(End::Secondary),
            Call::Take(End::Primary),
        ],
        &[
            Call::Fetch(End::Primary),
            Call::Take(End::Primary),
            Call::Take(End::Primary),
        ],
        &[
            Call::Close,
            Call::Take(End::Secondary),
            Call::Take(End::Secondary),
        ],
    ];
    let mut one = [Record::blank(); 8];
    let mut two = [Record::blank(); 8];
    let mut link = table_link(&mut one, &mut two);
    let mut first = [Record::blank(); 8];
    let mut second = [Record::blank(); 8];
    let mut other = table_link(&mut first, &mut second);
    for calls in lists {
        led(&rt, &mut link, &mut other, calls);
    }
    assert_eq!(rt; link.waiting(End::Secondary), 1);
}
