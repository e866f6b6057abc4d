// Checking and making a table line.
ghost use Rattle.std.specs.Prelude.{◌≡◌, length, drop};
ghost use Rattle.lines.specs.Line.{check_answer, made};
ghost use Rattle.lines.specs.Ring.{behind};
ghost use Rattle.lines.specs.Facts.{Worked};

use super::{RecordStore, TableLine};
use crate::two_way::TwoWay;
use crate::{Line, LineRefusal, Record, measures};

impl<'a, 'b> TableLine<'a, 'b> {
    // Whether a line with these measures can be made in memories of these lengths.
    pub fn check(k: usize, d: usize, one: usize, two: usize) -> Result<(), LineRefusal>
        ensures answers { result ≡ check_answer k d one two }
        ensures worked { Worked }
    {
        measures::check(k, d, one, two)
    }

    // An empty line whose slots are all blank. Where `check` refuses, a dead line that leaves its memory as it is.
    #[tactic(auto, using(crate::proofs::Stores::made_line))]
    pub fn make(
        k: usize,
        d: usize,
        one: &'a mut [Record],
        two: &'b mut [Record],
    ) -> TableLine<'a, 'b>
        ensures means { ⟦<TableLine<'a, 'b> as Line>⟧.meaning result ≡ made k d (length one.old) (length two.old) }
        ensures rest_one { behind result.one.ring ≡ drop (made k d (length one.old) (length two.old)).capacity one.old }
        ensures rest_two { behind result.two.ring ≡ drop (made k d (length one.old) (length two.old)).capacity two.old }
    {
        let (k, d) = measures::granted(k, d, one.len(), two.len());
        TwoWay {
            one: RecordStore::make(one, k),
            two: RecordStore::make(two, k),
            lifetime: d,
        }
    }
}
