// What a station answers.
ghost use Rattle.std.specs.Prelude.{◌≡◌, ◌+◌, ◌^◌, ◌<◌};
ghost use Rattle.stations.specs.Counts.{all_of};

use std::ops::Add;

mod calls;

// How many frames were put on the line, and how many found no room there and are lost.
#[derive(Clone, Copy, PartialEq, Eq, Debug, Default)]
pub struct Counts {
    pub put: usize,
    pub lost: usize,
}

impl Add for Counts {
    type Output = Counts;

    ghost can_add = { λ c d. (c.put + d.put < 2 ^ 64) × (c.lost + d.lost < 2 ^ 64) };

    ghost add_gives = { λ c d s. s ≡ all_of c d };

    fn add(self, more: Counts) -> Counts {
        Counts {
            put: self.put + more.put,
            lost: self.lost + more.lost,
        }
    }
}

// What the number rule found: the blocks acknowledged to the station, and whether it took the frame's block in. (An Option
// would be no plainer: blocks are acknowledged whether one is taken in or not.)
#[derive(Clone, Copy, PartialEq, Eq, Debug)]
pub struct Heard {
    pub acknowledged: usize,
    pub taken: bool,
}

// What a station made of a frame: the frames that it put, the blocks acknowledged to it, whether it took the
// frame's block in, and whether it passed the frame over. (An enum of outcomes would be no plainer: each of the four is told
// whatever the others are.)
// That these are at most 8 frames stands in the clauses `few`, and not here: the equations of specs/ make values of
// this type, and each would then need the proof of it.
#[derive(Clone, Copy, PartialEq, Eq, Debug)]
pub struct Taken {
    pub counts: Counts,
    pub acknowledged: usize,
    pub taken: bool,
    pub passed: bool,
}
