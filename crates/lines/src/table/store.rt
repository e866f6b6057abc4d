// The entries of a way as records in a ring.
ghost use Rattle.std.specs.Prelude.{◌≡◌, List, [], length, drop, if◌then◌else◌, nat_le};
ghost use Rattle.lines.specs.Ring.{size, held, behind};
ghost use Rattle.lines.specs.declared.record.Record.{Record as Records};
ghost use Rattle.lines.specs.Rooms.{held_fit};

use super::RecordStore;
use crate::store::Store;
use crate::{Record, Ring, RingFull};

impl<'a> RecordStore<'a> {
    // A store of no entries with room for k, or for none where the memory has fewer slots.
    pub(crate) fn make(memory: &'a mut [Record], k: usize) -> RecordStore<'a>
        ensures items { held result.ring ≡ [] }
        ensures places { size result.ring ≡ (if nat_le k (length memory.old) then k else 0) }
        ensures rest { behind result.ring ≡ drop (size result.ring) memory.old }
    {
        RecordStore {
            ring: Ring::make(memory, k),
        }
    }
}

impl Store for RecordStore<'_> {
    type Item = Record;

    ghost items = { λ s. held s.ring };

    ghost places = { λ s. size s.ring };

    ghost Rest = { List Records };

    ghost rest = { λ s. behind s.ring };

    ghost within = { λ s. held_fit s.ring };

    fn room(&self) -> usize {
        self.ring.size()
    }

    fn count(&self) -> usize {
        self.ring.len()
    }

    fn get(&self, place: usize) -> Option<Record> {
        self.ring.get(place)
    }

    #[tactic(auto, using(crate::proofs::Places::blanks_kept))]
    fn replace(&mut self, place: usize, new: Record) {
        self.ring.replace(place, new);
    }

    #[tactic(auto, using(crate::proofs::Places::blanks_kept))]
    fn push(&mut self, new: Record) -> Result<(), RingFull> {
        self.ring.push(new)
    }

    #[tactic(auto, using(crate::proofs::Places::blanks_kept))]
    fn pop(&mut self) -> Option<Record> {
        self.ring.pop()
    }
}
