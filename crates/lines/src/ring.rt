// A ring over lent memory: entries in its first slots, oldest first, for every kind of element that has a blank.
ghost use Rattle.std.specs.Prelude.{◌≡◌, ◌≤◌, length};

mod bulk;
mod calls;

// An element that a slot can hold, and the one that stands for nothing. (`Default` of the library says what holds of its
// value, and not which it is.)
pub trait Blank: Copy {
    ghost bare: { Self };

    fn blank() -> Self
        ensures { result ≡ bare };
}

impl Blank for u8 {
    ghost bare = { 0 };

    fn blank() -> u8 {
        0
    }
}

// Why a ring refuses to add: it has too few slots left.
#[derive(Clone, Copy, PartialEq, Eq, Debug)]
pub struct RingFull;

// The slots are the first `cap` of the memory; place 0 lies in slot `first`, and `count` places are held.
// `cap` stands beside the whole memory: a ring that is lent just its slots was tried, and no proof closed of what making it
// leaves of the rest. So that the rest stays is a clause of every call.
#[derive(Drop)]
pub struct Ring<'a, E: Copy> {
    slots: &'a mut [E],
    first: usize,
    count: usize,
    cap: usize,
    ghost fits: { cap ≤ length slots.now },
    ghost starts: { first ≤ cap },
    ghost holds: { count ≤ cap },
}
