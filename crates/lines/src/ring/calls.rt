// The calls on a ring for one element.
ghost use Rattle.std.specs.Prelude.{◌≡◌, ◌<◌, [], ◌∷◌, ◌++◌, length, drop, is_ok, if◌then◌else◌, nat_le, nat_lt, slice_set};
ghost use Rattle.lines.specs.Entries.{at};
ghost use Rattle.lines.specs.Ring.{slot, size, held, behind, Blanked, Kept};

use super::{Blank, Ring, RingFull};

impl<'a, E: Blank> Ring<'a, E> {
    // A ring over the first n slots of a memory, or over none where it has fewer; all slots are made blank.
    pub fn make(slots: &'a mut [E], n: usize) -> Ring<'a, E>
        ensures holds { held result ≡ [] }
        ensures slots { size result ≡ (if nat_le n (length slots.old) then n else 0) }
        ensures blank { Blanked E.Blank.bare result }
        ensures rest { behind result ≡ drop (size result) slots.old }
    {
        let blank = E::blank();
        let cap = if n <= slots.len() { n } else { 0 };
        // `fill` was tried: it asks that a clone of the element cannot fail, which no proof has of every `Copy` type.
        for i in 0..cap {
            slots[i] = blank;
        }
        Ring {
            slots,
            first: 0,
            count: 0,
            cap,
        }
    }
}

impl<E: Blank> Ring<'_, E> {
    // The slot of a place.
    fn slot(&self, i: usize) -> usize
        requires { i < self.now.cap }
        ensures is { result ≡ slot self.now.cap self.now.first i }
        ensures within { result < self.now.cap }
    {
        let rest = self.cap - self.first;
        if i < rest { self.first + i } else { i - rest }
    }

    // How many slots it has.
    pub fn size(&self) -> usize
        ensures { result ≡ size self.now }
    {
        self.cap
    }

    // How many places it holds.
    #[tactic(auto, using(crate::proofs::Places::len_is))]
    pub fn len(&self) -> usize
        ensures { result ≡ length (held self.now) }
    {
        self.count
    }

    // What it holds at a place; place 0 is the oldest.
    #[tactic(auto, using(crate::proofs::Places::got, crate::proofs::Places::got_none))]
    pub fn get(&self, i: usize) -> Option<E>
        ensures { result ≡ at (held self.now) i }
    {
        if i >= self.count {
            return None;
        }
        let p = self.slot(i);
        Some(self.slots[p])
    }

    // Writes over a place that it holds.
    #[tactic(auto, using(crate::proofs::Places::len_is))]
    pub fn replace(&mut self, i: usize, new: E)
        ensures holds { held self.new ≡ slice_set (held self.old) i new }
        ensures keeps { Kept E.Blank.bare self.old self.new }
    {
        if i < self.count {
            let p = self.slot(i);
            self.slots[p] = new;
        }
    }

    // Adds one at the end, unless all slots are taken.
    #[tactic(auto, using(crate::proofs::Places::len_is))]
    pub fn push(&mut self, e: E) -> Result<(), RingFull>
        ensures fits { is_ok result ≡ nat_lt (length (held self.old)) (size self.old) }
        ensures holds { held self.new ≡ (if is_ok result then held self.old ++ e ∷ [] else held self.old) }
        ensures keeps { Kept E.Blank.bare self.old self.new }
    {
        let len = self.count;
        if len >= self.cap {
            return Err(RingFull);
        }
        let p = self.slot(len);
        self.slots[p] = e;
        self.count += 1;
        Ok(())
    }

    // Takes the oldest out and makes its slot blank.
    #[tactic(auto, using(crate::proofs::Places::got, crate::proofs::Places::got_none, crate::proofs::Places::len_is))]
    pub fn pop(&mut self) -> Option<E>
        ensures gives { result ≡ at (held self.old) 0 }
        ensures holds { held self.new ≡ drop 1 (held self.old) }
        ensures keeps { Kept E.Blank.bare self.old self.new }
    {
        if self.count == 0 {
            return None;
        }
        let p = self.slot(0);
        let oldest = self.slots[p];
        self.slots[p] = E::blank();
        self.first = p + 1;
        self.count -= 1;
        Some(oldest)
    }
}
