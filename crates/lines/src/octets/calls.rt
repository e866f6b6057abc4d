// Checking and making an octet line.
ghost use Rattle.std.specs.Prelude.{◌≡◌, ◌*◌, ◌/◌, length, drop};
ghost use Rattle.lines.specs.Line.{check_answer, made};
ghost use Rattle.lines.specs.Ring.{behind};

use super::{OctetLine, OctetStore};
use crate::two_way::TwoWay;
use crate::{Line, LineRefusal, measures};

impl<'a, 'b> OctetLine<'a, 'b> {
    // Whether a line with these measures can be made in memories of these many octets.
    pub fn check(k: usize, d: usize, one: usize, two: usize) -> Result<(), LineRefusal>
        ensures answers { result ≡ check_answer k d (one / 72) (two / 72) }
    {
        measures::check(k, d, one / 72, two / 72)
    }

    // (The two makings differ in the types of memory and stores: one for both would take them as parameters.)
    // An empty line whose octets are all zero. Where `check` refuses, a dead line that leaves its memory as it is.
    #[tactic(auto, using(crate::proofs::Stores::made_line))]
    pub fn make(k: usize, d: usize, one: &'a mut [u8], two: &'b mut [u8]) -> OctetLine<'a, 'b>
        ensures means { ⟦<OctetLine<'a, 'b> as Line>⟧.meaning result ≡ made k d (length one.old / 72) (length two.old / 72) }
        ensures rest_one { behind result.one.ring ≡ drop (72 * (made k d (length one.old / 72) (length two.old / 72)).capacity) one.old }
        ensures rest_two { behind result.two.ring ≡ drop (72 * (made k d (length one.old / 72) (length two.old / 72)).capacity) two.old }
    {
        let (k, d) = measures::granted(k, d, one.len() / 72, two.len() / 72);
        TwoWay {
            one: OctetStore::make(one, k),
            two: OctetStore::make(two, k),
            lifetime: d,
        }
    }
}
