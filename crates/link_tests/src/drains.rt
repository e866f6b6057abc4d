// Drains: after a struck block, with a poll outstanding, and while blocks wait; over both lines.
use crate::answers::*;
use frames::Way;
use lines::{Blank, Line, OctetLine, Record, TableLine};
use link::{Drained, End, Link, LinkRefusal};
use stations::Counts;
use std::process::Abort;

// So many frames are put and none is lost, in so many ticks and takes, and whether neither end has a block outstanding then.
fn drains(put: usize, ticks: usize, takes: usize, settled: bool) -> Result<Drained, LinkRefusal> {
    Ok(Drained {
        counts: Counts { put, lost: 0 },
        ticks,
        takes,
        settled,
    })
}

fn outstanding<L: Line>(link: &Link<L>) -> [usize; 2] {
    [
        link.outstanding(End::Primary),
        link.outstanding(End::Secondary),
    ]
}

fn waiting<L: Line>(link: &Link<L>) -> [usize; 2] {
    [link.waiting(End::Primary), link.waiting(End::Secondary)]
}

// Refused before the link is open. Of seven blocks just sent the first is struck, and seven takes take in nothing; a drain
// has all across, and with seven waiting the next send is refused with far busy.
fn first_struck<L: Line>(rt: &impl Abort, link: &mut Link<L>) {
    same(rt, refusal(link.drain()), Some(18));
    same(rt, link.open(), puts(1));
    same(rt, refusal(link.drain()), Some(18));
    same(rt, link.take(End::Secondary), heeds(1, 0));
    same(rt, link.take(End::Primary), heeds(0, 0));
    sends(rt, link, End::Primary, 7);
    same(rt, link.strike(Way::One, 0, burst(0, 1)), puts(0));
    same(rt, refusal(link.take(End::Secondary)), Some(10));
    takes(rt, link, End::Secondary, 6, block_heard(0, false));
    same(rt, link.drain(), drains(11, 0, 11, true));
    same(rt, outstanding(link), [0, 0]);
    same(rt, waiting(link), [0, 7]);
    same(rt, refusal(link.send(End::Primary, &[1])), Some(21));
}

// A block each way, and a poll that is struck: the drain waits four ticks until the poll is sent again. The takes of the
// struck entries count.
fn poll_struck<L: Line>(rt: &impl Abort, link: &mut Link<L>) {
    opened(rt, link);
    same(rt, link.send(End::Primary, &[1]), puts(1));
    same(rt, link.send(End::Secondary, &[1]), puts(1));
    same(rt, link.poll(), puts(1));
    same(rt, link.strike(Way::One, 1, burst(0, 1)), puts(0));
    same(rt, link.tick(), puts(0));
    same(rt, link.drain(), drains(4, 4, 7, true));
    same(rt, link.entries(Way::One), 0);
    same(rt, link.entries(Way::Two), 0);
    same(rt, waiting(link), [1, 1]);
}

// Five blocks wait, so of three more only two find room: the drain is not settled. Once three are fetched, the next is.
fn blocks_wait<L: Line>(rt: &impl Abort, link: &mut Link<L>) {
    opened(rt, link);
    sends(rt, link, End::Primary, 5);
    takes(rt, link, End::Secondary, 5, block_heard(0, true));
    same(rt, link.drain(), drains(4, 0, 4, true));
    sends(rt, link, End::Primary, 3);
    same(rt, link.drain(), drains(4, 0, 7, false));
    same(rt, outstanding(link), [1, 0]);
    for _ in 0..3 {
        same(rt, fetch(link, End::Secondary), Ok(1));
    }
    same(rt, link.drain(), drains(5, 0, 5, true));
    same(rt, outstanding(link), [0, 0]);
}

// The second and the third link are made over memory that the one before left.
#[test]
fn drains_of_a_table_line(rt: HostRuntime) {
    let mut one = [Record::blank(); 8];
    let mut two = [Record::blank(); 8];
    first_struck(&rt, &mut table_link(&mut one, &mut two));
    poll_struck(&rt, &mut table_link(&mut one, &mut two));
    blocks_wait(&rt, &mut table_link(&mut one, &mut two));
}

fn octet_link<'a, 'b>(one: &'a mut [u8; 576], two: &'b mut [u8; 576]) -> Link<OctetLine<'a, 'b>> {
    Link::make(OctetLine::make(8, 2, one, two), 5)
}

#[test]
fn drains_of_an_octet_line(rt: HostRuntime) {
    let mut one = [0; 576];
    let mut two = [0; 576];
    first_struck(&rt, &mut octet_link(&mut one, &mut two));
    poll_struck(&rt, &mut octet_link(&mut one, &mut two));
    blocks_wait(&rt, &mut octet_link(&mut one, &mut two));
}
