// Whole exchanges: opening, the window, polls and finals, sending again, closing.
use crate::answers::*;
use frames::Way;
use lines::Line;
use link::{End, Link};
use stations::{Counts, Mode, SecondaryMode, Taken};
use std::process::Abort;

fn modes<L: Line>(rt: &impl Abort, link: &Link<L>, primary: Mode, secondary: SecondaryMode) {
    same(rt, link.primary_mode(), primary);
    same(rt, link.secondary_mode(), secondary);
}

// A struck SARM opens nothing; the fifth tick puts another, and that one opens both ends.
fn lost_sarm<L: Line>(rt: &impl Abort, link: &mut Link<L>) {
    same(rt, link.open(), puts(1));
    same(rt, link.strike(Way::One, 0, burst(16, 0x8000)), puts(0));
    same(rt, refusal(link.take(End::Secondary)), Some(10));
    same(rt, refusal(link.take(End::Secondary)), Some(9));
    modes(rt, link, Mode::Opening, SecondaryMode::Closed);
    ticks(rt, link, 4);
    same(rt, link.tick(), puts(1));
    same(rt, link.take(End::Secondary), heeds(1, 0));
    modes(rt, link, Mode::Opening, SecondaryMode::Open);
    same(rt, link.take(End::Primary), heeds(0, 0));
    modes(rt, link, Mode::Open, SecondaryMode::Open);
}

#[test]
fn opening_with_a_lost_sarm(rt: HostRuntime) {
    on_a_link(|link| lost_sarm(&rt, link));
}

// An entry stands for two ticks; the third removes it, and only the fifth asks again.
fn aged_sarm<L: Line>(rt: &impl Abort, link: &mut Link<L>) {
    same(rt, link.open(), puts(1));
    ticks(rt, link, 2);
    same(rt, link.entries(Way::One), 1);
    ticks(rt, link, 2);
    same(rt, link.entries(Way::One), 0);
    same(rt, link.tick(), puts(1));
    same(rt, link.entries(Way::One), 1);
}

#[test]
fn opening_with_an_aged_sarm(rt: HostRuntime) {
    on_a_link(|link| aged_sarm(&rt, link));
}

// Seven blocks fill the window and then the queue; the far end is busy until a block is fetched.
fn seven_blocks<L: Line>(rt: &impl Abort, link: &mut Link<L>) {
    opened(rt, link);
    sends(rt, link, End::Primary, 7);
    same(rt, link.outstanding(End::Primary), 7);
    same(rt, refusal(link.send(End::Primary, &[1])), Some(20));
    takes(rt, link, End::Secondary, 7, block_heard(0, true));
    same(rt, link.waiting(End::Secondary), 7);
    same(rt, link.poll(), puts(1));
    same(rt, link.take(End::Secondary), heeds(1, 0));
    same(rt, link.take(End::Primary), heeds(0, 7));
    same(rt, refusal(link.send(End::Primary, &[2])), Some(21));
    same(rt, fetch(link, End::Secondary), Ok(1));
    same(rt, link.poll(), puts(1));
    same(rt, link.take(End::Secondary), heeds(1, 0));
    same(rt, link.take(End::Primary), heeds(0, 0));
    same(rt, link.send(End::Primary, &[2]), puts(1));
    same(rt, link.take(End::Secondary), block_heard(0, true));
    same(rt, link.outstanding(End::Primary), 1);
    same(rt, link.outstanding(End::Secondary), 0);
    same(rt, link.waiting(End::Secondary), 7);
}

#[test]
fn window_and_far_busy(rt: HostRuntime) {
    on_a_link(|link| seven_blocks(&rt, link));
}

// The first of three blocks is struck: the others are not taken in, and after a final all three are sent again.
fn struck_block<L: Line>(rt: &impl Abort, link: &mut Link<L>) {
    opened(rt, link);
    sends(rt, link, End::Primary, 3);
    same(rt, link.strike(Way::One, 0, burst(0, 1)), puts(0));
    same(rt, refusal(link.take(End::Secondary)), Some(10));
    same(rt, link.take(End::Secondary), block_heard(0, false));
    same(rt, link.take(End::Secondary), block_heard(0, false));
    same(rt, link.poll(), puts(1));
    same(rt, link.take(End::Secondary), heeds(1, 0));
    same(rt, link.take(End::Primary), heeds(3, 0));
    takes(rt, link, End::Secondary, 3, block_heard(0, true));
    same(rt, link.waiting(End::Secondary), 3);
    same(rt, link.send(End::Secondary, &[9]), puts(1));
    same(rt, link.take(End::Primary), block_heard(3, true));
    same(rt, link.outstanding(End::Primary), 0);
    same(rt, link.waiting(End::Primary), 1);
}

#[test]
fn sending_again_after_a_struck_block(rt: HostRuntime) {
    on_a_link(|link| struck_block(&rt, link));
}

// The answer to a poll finds room for its status alone: the seven blocks behind it are lost. A poll without an answer is
// sent again at the fifth tick.
fn full_way<L: Line>(rt: &impl Abort, link: &mut Link<L>) {
    opened(rt, link);
    sends(rt, link, End::Secondary, 7);
    let lost = Ok(Taken {
        counts: Counts { put: 1, lost: 7 },
        acknowledged: 0,
        taken: false,
        passed: false,
    });
    same(rt, link.poll(), puts(1));
    same(rt, link.take(End::Secondary), lost);
    same(rt, link.strike(Way::Two, 7, burst(0, 1)), puts(0));
    takes(rt, link, End::Primary, 7, block_heard(0, true));
    same(rt, refusal(link.take(End::Primary)), Some(10));
    ticks(rt, link, 4);
    same(rt, link.tick(), puts(1));
}

#[test]
fn lost_frames_and_a_second_poll(rt: HostRuntime) {
    on_a_link(|link| full_way(&rt, link));
}

// A closing primary passes an I frame over. The first UA is struck; the second DISC finds the secondary closed, and its
// DM closes the primary.
fn lost_ua<L: Line>(rt: &impl Abort, link: &mut Link<L>) {
    opened(rt, link);
    same(rt, link.send(End::Secondary, &[9]), puts(1));
    same(rt, link.close(), puts(1));
    same(rt, link.take(End::Primary), passes());
    same(rt, link.take(End::Secondary), heeds(1, 0));
    same(rt, link.strike(Way::Two, 0, burst(0, 1)), puts(0));
    same(rt, refusal(link.take(End::Primary)), Some(10));
    modes(rt, link, Mode::Closing, SecondaryMode::Closed);
    ticks(rt, link, 4);
    same(rt, link.tick(), puts(1));
    same(rt, link.take(End::Secondary), heeds(1, 0));
    same(rt, link.take(End::Primary), heeds(0, 0));
    modes(rt, link, Mode::Closed, SecondaryMode::Closed);
}

#[test]
fn closing_with_a_lost_ua(rt: HostRuntime) {
    on_a_link(|link| lost_ua(&rt, link));
}

// A block that waits is still there after closing and opening again; numbers start at 0 again.
fn opened_twice<L: Line>(rt: &impl Abort, link: &mut Link<L>) {
    opened(rt, link);
    same(rt, link.send(End::Primary, &[1]), puts(1));
    same(rt, link.take(End::Secondary), block_heard(0, true));
    same(rt, link.send(End::Primary, &[2]), puts(1));
    same(rt, link.close(), puts(1));
    same(rt, link.take(End::Secondary), block_heard(0, true));
    same(rt, link.take(End::Secondary), heeds(1, 0));
    same(rt, link.take(End::Primary), heeds(0, 0));
    opened(rt, link);
    same(rt, link.outstanding(End::Primary), 0);
    same(rt, link.send(End::Primary, &[3]), puts(1));
    same(rt, link.take(End::Secondary), block_heard(0, true));
    same(rt, link.waiting(End::Secondary), 3);
}

#[test]
fn waiting_blocks_outlast_an_opening(rt: HostRuntime) {
    on_a_link(|link| opened_twice(&rt, link));
}
