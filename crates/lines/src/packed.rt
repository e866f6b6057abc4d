// An entry of the octet line, a record of 72 octets: the frame's length, its age in two octets, low one first, its
// octets, zeros behind. There is no mark for struck: octets that are not read are struck.
use std::marker::Model;

mod calls;

#[derive(Clone, Copy)]
pub struct Packed {
    pub(crate) octets: [u8; 72],
}

impl Model for Packed {
    ghost use Rattle.std.specs.Prelude.{ℕ, List};
    ghost use Rattle.lines.specs.Packed.{Whole};

    ghost Value = { List ℕ };

    ghost view = { λ p. p.octets };

    ghost invariant = { λ p. Whole p.octets };

    ghost inverse = { λ os. record { octets = os } };
}
