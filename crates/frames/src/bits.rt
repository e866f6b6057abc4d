// Bit errors: a burst within sixteen bits of a run of octets.
ghost use Rattle.std.specs.Prelude.{◌≡◌, length};
ghost use Rattle.frames.specs.Bits.{strike_answer, strike_leaves};
ghost use Rattle.frames.specs.Laws.{Seen};

use crate::Burst;

// Turns over the bits of a burst, and answers yes. Where its mask is 0, or sixteen bits from its start on do not lie
// within the octets, it answers no and alters nothing. (A Result would be no plainer: which refusal a no is, the line says.)
pub fn strike(octets: &mut [u8], burst: Burst) -> bool
    ensures answers { result ≡ strike_answer (length octets.old) burst.start burst.mask }
    ensures leaves { octets.new ≡ strike_leaves burst.start burst.mask octets.old }
    ensures seen { Seen octets.old result octets.new }
{
    let Burst { start, mask } = burst;
    let first = start / 8;
    let bit = start % 8;
    if mask == 0 || octets.len() <= first + (bit + 15) / 8 {
        return false;
    }
    let mut rest = mask;
    // A range, since no iterator goes over the bits of a mask.
    for i in bit..bit + 16 {
        if rest % 2 == 1 {
            octets[first + i / 8] ^= 1 << (i % 8);
        }
        rest /= 2;
    }
    true
}
