ghost use Rattle.std.specs.Prelude.{◌≡◌};
ghost use Rattle.stations.specs.Answers.{passed_over, heeded_with, heard_with};

use super::{Counts, Heard, Taken};

impl Taken {
    // The frame was passed over.
    pub(crate) fn passed() -> Taken
        ensures { result ≡ passed_over }
    {
        Taken {
            counts: Counts::default(),
            acknowledged: 0,
            taken: false,
            passed: true,
        }
    }

    // The frame was heeded, and these frames were put on it; it acknowledged nothing and brought no block.
    pub(crate) fn heeded(counts: Counts) -> Taken
        ensures { result ≡ heeded_with counts }
    {
        Taken {
            counts,
            acknowledged: 0,
            taken: false,
            passed: false,
        }
    }
}

impl Heard {
    // With the frames that were put.
    pub(crate) fn with(self, counts: Counts) -> Taken
        ensures { result ≡ heard_with self counts }
    {
        Taken {
            counts,
            acknowledged: self.acknowledged,
            taken: self.taken,
            passed: false,
        }
    }
}
