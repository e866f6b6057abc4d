// A row of blocks, the oldest first, 7 at most. A station has two: the window and the receive queue.
ghost use Rattle.std.specs.Prelude.{◌≡◌, ◌≤◌, length};

use frames::Block;

mod calls;

// The blocks stand in place, since a station allocates nothing: the first `count` of the seven.
// No `impl Model`: what makes a row `Copy` gives its fields back from what is seen, and the octets behind a block's
// length are not seen.
#[derive(Clone, Copy)]
pub struct Row {
    blocks: [Block; 7],
    count: usize,
    ghost whole: { length blocks ≡ 7 },
    ghost fits: { count ≤ 7 },
}

// The blocks that a station has sent and that are not acknowledged yet.
pub type Window = Row;

// The blocks that a station has taken in and that wait to be fetched.
pub type Queue = Row;
