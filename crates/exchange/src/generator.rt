// A fixed generator of numbers, so that every run is the same: a linear congruential generator of 32 bits, of which the
// upper 16 are drawn.
ghost use Rattle.std.specs.Prelude.{◌<◌, ◌≤◌};

#[derive(Clone, Copy)]
pub struct Generator {
    state: u32,
}

impl Generator {
    pub fn new(seed: u32) -> Generator {
        Generator { state: seed }
    }

    fn draw(&mut self) -> usize {
        self.state = self.state.wrapping_mul(1664525).wrapping_add(1013904223);
        (self.state / 65536) as usize
    }

    // A number below n.
    pub fn below(&mut self, n: usize) -> usize
        requires { 0 < n }
        ensures { result < n }
    {
        self.draw() % n
    }
}
