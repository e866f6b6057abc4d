// The numbers of blocks: N(S), N(R), V(S), V(A) and V(R) go modulo 8.
ghost use Rattle.std.specs.Prelude.{◌≡◌, ◌+◌, ◌-◌, ◌%◌, ◌≤◌};

#[derive(Clone, Copy)]
pub(crate) struct Number {
    value: u8,
    ghost small: { value ≤ 7 },
}

impl Number {
    pub(crate) fn of(n: u8) -> Number
        ensures { result.value ≡ n % 8 }
    {
        Number { value: n % 8 }
    }

    pub(crate) fn get(self) -> u8
        ensures { result ≡ self.value }
    {
        self.value
    }

    pub(crate) fn next(self) -> Number
        ensures { result.value ≡ (self.value + 1) % 8 }
    {
        Number::of(self.value + 1)
    }

    // How many numbers lie from another up to this one.
    pub(crate) fn since(self, from: Number) -> usize
        ensures { result ≡ (self.value + (8 - from.value)) % 8 }
    {
        ((self.value + (8 - from.value)) % 8) as usize
    }
}
