// The entries of a way as packed records in a ring of octets.
ghost use Rattle.std.specs.Prelude.{◌≡◌, ℕ, ◌*◌, ◌/◌, List, [], length, drop, if◌then◌else◌, nat_le};
ghost use Rattle.lines.specs.Ring.{size, behind};
ghost use Rattle.lines.specs.Octets.{records};
ghost use Rattle.lines.specs.Rooms.{records_fit};

use super::OctetStore;
use crate::packed::Packed;
use crate::store::Store;
use crate::{Ring, RingFull};

impl<'a> OctetStore<'a> {
    // A store of no entries with room for k, or for none where the memory has fewer octets.
    pub(crate) fn make(memory: &'a mut [u8], k: usize) -> OctetStore<'a>
        ensures items { records result.ring ≡ [] }
        ensures places { size result.ring / 72 ≡ (if nat_le k (length memory.old / 72) then k else 0) }
        ensures rest { behind result.ring ≡ drop (72 * (size result.ring / 72)) memory.old }
    {
        let slots = if k <= memory.len() / 72 { 72 * k } else { 0 };
        OctetStore {
            ring: Ring::make(memory, slots),
        }
    }
}

impl Store for OctetStore<'_> {
    type Item = Packed;

    ghost items = { λ s. records s.ring };

    ghost places = { λ s. size s.ring / 72 };

    ghost Rest = { List ℕ };

    ghost rest = { λ s. behind s.ring };

    ghost within = { λ s. records_fit s.ring };

    fn room(&self) -> usize {
        self.ring.size() / 72
    }

    #[tactic(auto, using(crate::specs::Rooms::cut_length))]
    fn count(&self) -> usize {
        self.ring.len() / 72
    }

    fn get(&self, place: usize) -> Option<Packed> {
        let mut octets = [0; 72];
        if place < self.ring.len() / 72 && self.ring.peek(72 * place, &mut octets) {
            Some(Packed { octets })
        } else {
            None
        }
    }

    fn replace(&mut self, place: usize, new: Packed) {
        if place < self.ring.len() / 72 {
            let _whole = self.ring.poke(72 * place, &new.octets);
        }
    }

    fn push(&mut self, new: Packed) -> Result<(), RingFull> {
        self.ring.push_all(&new.octets)
    }

    fn pop(&mut self) -> Option<Packed> {
        let oldest = self.get(0)?;
        self.ring.shed(72);
        Some(oldest)
    }
}
