// The calls on a ring for a run of elements.
ghost use Rattle.std.specs.Prelude.{◌≡◌, ◌+◌, ◌++◌, length, take, drop, is_ok, if◌then◌else◌, nat_le, slice_index_or};
ghost use Rattle.lines.specs.Ring.{laid, size, held, Kept};

use super::{Blank, Ring, RingFull};

impl<E: Blank> Ring<'_, E> {
    // Adds a whole run at the end, or nothing.
    pub fn push_all(&mut self, run: &[E]) -> Result<(), RingFull>
        ensures fits { is_ok result ≡ nat_le (length (held self.old) + length run.now) (size self.old) }
        ensures holds { held self.new ≡ (if is_ok result then held self.old ++ run.now else held self.old) }
        ensures keeps { Kept E.Blank.bare self.old self.new }
    {
        if run.len() > self.size() - self.len() {
            return Err(RingFull);
        }
        for e in run {
            self.push(*e)?;
        }
        Ok(())
    }

    // Takes the n oldest out, or all where it holds fewer.
    pub fn shed(&mut self, n: usize)
        ensures holds { held self.new ≡ drop n (held self.old) }
        ensures keeps { Kept E.Blank.bare self.old self.new }
    {
        for _ in 0..n.min(self.len()) {
            let _gone = self.pop();
        }
    }

    // What it holds at a place, or the element given where it holds none there.
    #[tactic(auto, using(crate::proofs::Runs::got_or))]
    fn get_or(&self, i: usize, or: E) -> E
        ensures { result ≡ slice_index_or (held self.now) i or }
    {
        self.get(i).unwrap_or(or)
    }

    // Copies a run out, from a place on, as many as `out` takes; answers no and writes nothing where it holds fewer.
    // A `Result` would be no plainer: nobody passes the no on as a refusal.
    pub fn peek(&self, from: usize, out: &mut [E]) -> bool
        ensures fits { result ≡ nat_le (from + length out.old) (length (held self.now)) }
        ensures gives { out.new ≡ (if result then take (length out.old) (drop from (held self.now)) else out.old) }
    {
        let len = self.len();
        if from > len || out.len() > len - from {
            return false;
        }
        let blank = E::blank();
        // By index: after writes through `iter_mut` a proof knows the length of `out` and no element.
        for j in 0..out.len() {
            out[j] = self.get_or(from + j, blank);
        }
        true
    }

    // Writes a run over what it holds, from a place on; answers no and writes nothing where it holds fewer.
    // A `Result` would be no plainer, as in `peek`.
    pub fn poke(&mut self, from: usize, run: &[E]) -> bool
        ensures fits { result ≡ nat_le (from + length run.now) (length (held self.old)) }
        ensures holds { held self.new ≡ (if result then laid (held self.old) from run.now else held self.old) }
        ensures keeps { Kept E.Blank.bare self.old self.new }
    {
        let len = self.len();
        if from > len || run.len() > len - from {
            return false;
        }
        for (j, e) in run.iter().enumerate() {
            self.replace(from + j, *e);
        }
        true
    }
}
