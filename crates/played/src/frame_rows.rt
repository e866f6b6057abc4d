// Cases that read octets as a frame.
ghost use Rattle.std.specs.Prelude.{◌≡◌};

use frames::{Frame, FrameRefusal, Way, check_sequence, read};

// The octets of a frame without information that has this control octet.
fn octets_with(control: u8) -> [u8; 4] {
    let sequence = check_sequence(&[0x01, control]);
    let [low, high] = sequence.to_le_bytes();
    [0x01, control, low, high]
}

// Whether a case comes out as it should on both ways.
pub fn on_both_ways<F: Fn(Way) -> bool>(holds: F) -> bool
    requires { F.IsAlwaysCallable holds }
{
    holds(Way::One) && holds(Way::Two)
}

// 1: the control octet 0x1F on way 1 is SARM.
pub fn sarm_on_way_one() -> bool {
    matches!(read(Way::One, &octets_with(0x1f)), Ok(Frame::Sarm))
}

// 2: on way 2 it is DM.
pub fn dm_on_way_two() -> bool {
    matches!(read(Way::Two, &octets_with(0x1f)), Ok(Frame::Dm))
}

// 3: 0xA6 is I with N(S) 3, N(R) 5 and B 0, on either way.
pub fn numbers_of_a_block(way: Way) -> bool {
    matches!(
        read(way, &octets_with(0xa6)),
        Ok(Frame::I {
            ns: 3,
            nr: 5,
            b: 0,
            info: []
        })
    )
}

// 4: 0xF5 is RNR with N(R) 7 and B 1, on either way.
pub fn numbers_of_a_status(way: Way) -> bool {
    matches!(
        read(way, &octets_with(0xf5)),
        Ok(Frame::Rnr { nr: 7, b: 1 })
    )
}

// The number that a reading is refused with, none where a frame is read.
fn refusal(way: Way, octets: &[u8]) -> Option<u8> {
    read(way, octets).err().map(FrameRefusal::number)
}

// 5: 0x09 is refused with 5, control, and so is 0x0F, on either way.
pub fn no_such_control(way: Way) -> bool {
    refusal(way, &octets_with(0x09)) == Some(5) && refusal(way, &octets_with(0x0f)) == Some(5)
}

// 15: three octets are refused with 1, short, and 69 with 2, long.
pub fn short_and_long(way: Way) -> bool {
    refusal(way, &[0; 3]) == Some(1) && refusal(way, &[0; 69]) == Some(2)
}
