// The octet line: each frame as its octets with a length and an age, in a ring of 72 × K octets a way.
ghost use Rattle.std.specs.Prelude.{◌≡◌, ◌%◌, length};
ghost use Rattle.std.specs.List.{AllByRecursion};
ghost use Rattle.lines.specs.Ring.{held, Blanked};
ghost use Rattle.lines.specs.Packed.{Neat};
ghost use Rattle.lines.specs.Octets.{records};
ghost use Rattle.std.proofs.Props.{props};

use crate::Ring;
use crate::two_way::TwoWay;

mod calls;
mod store;

// One way: a ring of whole records. Slots that hold nothing are zero, and so are octets behind a frame in its record.
// (The facts are public, for clauses of other crates.)
#[derive(Drop)]
pub struct OctetStore<'a> {
    ring: Ring<'a, u8>,
    pub ghost even: { length (held ring) % 72 ≡ 0 },
    pub ghost free: { Blanked 0 ring } by { Prim.hlevel props },
    pub ghost neat: { AllByRecursion Neat (records ring) } by { Prim.hlevel props },
}

pub type OctetLine<'a, 'b> = TwoWay<OctetStore<'a>, OctetStore<'b>>;
