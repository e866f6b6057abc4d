// Cases of a new link of T = 5.
use crate::answers::{heeds, puts, refusal};
use crate::both::Case;
use frames::{Burst, Way};
use lines::Line;
use link::{Drained, End, Link, LinkRefusal};
use stations::Counts;

const T: usize = 5;

// One bit of the oldest entry of way 1 is struck.
fn struck<L: Line>(link: &mut Link<L>, start: usize) -> Result<Counts, LinkRefusal> {
    link.strike(Way::One, 0, Burst { start, mask: 1 })
}

// 7: a frame without information has 32 bits, so a strike at 17 is refused with 14, and one at 16 is granted.
pub struct LastStrike;

impl Case for LastStrike {
    fn holds<L: Line + Drop>(line: L) -> bool {
        let mut link = Link::make(line, T);
        link.open() == puts(1)
            && refusal(struck(&mut link, 17)) == Some(14)
            && struck(&mut link, 16) == puts(0)
    }
}

// Whether so many ticks put nothing.
fn silent<L: Line>(link: &mut Link<L>, ticks: usize) -> bool {
    (0..ticks).all(|_| link.tick() == puts(0))
}

// Whether an entry that was just put on way 1 stands after two ticks, and leaves at the third.
fn stands_for_two_ticks<L: Line>(link: &mut Link<L>) -> bool {
    silent(link, 2) && link.entries(Way::One) == 1 && silent(link, 1) && link.entries(Way::One) == 0
}

// 8: after two ticks an entry still stands on the line; the third removes it.
pub struct ThirdTick;

impl Case for ThirdTick {
    fn holds<L: Line + Drop>(line: L) -> bool {
        let mut link = Link::make(line, T);
        link.open() == puts(1) && stands_for_two_ticks(&mut link)
    }
}

// 9: a SARM is struck; after four ticks way 1 is empty, and the fifth puts a new SARM, which stands for two ticks more.
pub struct AsksAgain;

impl Case for AsksAgain {
    fn holds<L: Line + Drop>(line: L) -> bool {
        let mut link = Link::make(line, T);
        link.open() == puts(1)
            && struck(&mut link, 0) == puts(0)
            && silent(&mut link, 4)
            && link.entries(Way::One) == 0
            && link.tick() == puts(1)
            && stands_for_two_ticks(&mut link)
    }
}

// SARM and its UA are taken, and both ends are open.
fn opened<L: Line>(link: &mut Link<L>) -> bool {
    link.open() == puts(1)
        && link.take(End::Secondary) == heeds(1)
        && link.take(End::Primary) == heeds(0)
}

// A block of one octet is sent at the primary.
fn sent<L: Line>(link: &mut Link<L>) -> Result<Counts, LinkRefusal> {
    link.send(End::Primary, &[42])
}

// A link is opened, and its primary sends seven blocks.
fn seven_sent<L: Line>(link: &mut Link<L>) -> bool {
    opened(link) && (0..7).all(|_| sent(link) == puts(1))
}

// 10: just opened, the primary sends seven blocks; an eighth is refused with 20.
pub struct FullWindow;

impl Case for FullWindow {
    fn holds<L: Line + Drop>(line: L) -> bool {
        let mut link = Link::make(line, T);
        seven_sent(&mut link) && refusal(sent(&mut link)) == Some(20)
    }
}

// The first of seven blocks is struck, so that it is taken damaged, and none of the others is the next.
fn first_struck<L: Line>(link: &mut Link<L>) -> bool {
    seven_sent(link)
        && struck(link, 0) == puts(0)
        && refusal(link.take(End::Secondary)) == Some(10)
        && (0..6).all(|_| link.take(End::Secondary) == heeds(0))
}

// Then a drain answers 0 ticks, 11 takes and settled.
fn settles<L: Line>(link: &mut Link<L>) -> bool {
    let drained = Drained {
        counts: Counts { put: 11, lost: 0 },
        ticks: 0,
        takes: 11,
        settled: true,
    };
    first_struck(link) && link.drain() == Ok(drained)
}

// 11: the first of seven blocks is struck, seven takes take in nothing, and a drain settles.
pub struct Drains;

impl Case for Drains {
    fn holds<L: Line + Drop>(line: L) -> bool {
        settles(&mut Link::make(line, T))
    }
}

// 12: and the next send is refused with 21, since the seven wait at the secondary.
pub struct FarBusy;

impl Case for FarBusy {
    fn holds<L: Line + Drop>(line: L) -> bool {
        let mut link = Link::make(line, T);
        settles(&mut link) && refusal(sent(&mut link)) == Some(21)
    }
}

// Whether an end sends a block of 64 octets, and one of 65 is refused with 19.
fn longest_block<L: Line>(link: &mut Link<L>, end: End) -> bool {
    link.send(end, &[0; 64]) == puts(1) && refusal(link.send(end, &[0; 65])) == Some(19)
}

// 14: just opened, blocks of 64 octets are granted and of 65 refused with 19, at either end.
pub struct LongestBlock;

impl Case for LongestBlock {
    fn holds<L: Line + Drop>(line: L) -> bool {
        let mut link = Link::make(line, T);
        opened(&mut link)
            && longest_block(&mut link, End::Primary)
            && longest_block(&mut link, End::Secondary)
    }
}
