ghost use Rattle.std.specs.Prelude.{◌≡◌, ◌&&◌, ◌==◌, [], ◌∷◌, ◌++◌, length, drop, map, if◌then◌else◌, nat_le, nat_lt};
ghost use Rattle.std.specs.Option.{option_map};
ghost use Rattle.frames.specs.Blocks.{octets_in};
ghost use Rattle.lines.specs.Entries.{at};
ghost use Rattle.stations.specs.Blocks.{in_row};

use super::Row;
use frames::Block;

impl Row {
    pub(crate) fn new() -> Row
        ensures { in_row result ≡ [] }
    {
        Row {
            blocks: [Block::empty(); 7],
            count: 0,
        }
    }

    pub(crate) fn len(&self) -> usize
        ensures { result ≡ length (in_row self.now) }
    {
        self.count
    }

    pub(crate) fn is_full(&self) -> bool
        ensures { result ≡ (length (in_row self.now) == 7) }
    {
        self.count == 7
    }

    pub(crate) fn blocks(&self) -> &[Block]
        ensures { map octets_in result.now ≡ in_row self.now }
    {
        &self.blocks[..self.count]
    }

    // A block of these octets joins the end, where 7 do not stand already and there are at most 64 octets. (A Result would be
    // no plainer: whether the block is taken in is what both callers ask.)
    pub(crate) fn push(&mut self, octets: &[u8]) -> bool
        ensures answers { result ≡ (nat_lt (length (in_row self.old)) 7 && nat_le (length octets.now) 64) }
        ensures leaves { in_row self.new ≡ (if result then in_row self.old ++ octets.now ∷ [] else in_row self.old) }
    {
        if self.is_full() {
            return false;
        }
        let blocks = &mut self.blocks;
        let fitted = blocks[self.count].write(octets);
        if fitted {
            self.count += 1;
        }
        fitted
    }

    // The `n` oldest blocks leave.
    pub(crate) fn shed(&mut self, n: usize)
        ensures { in_row self.new ≡ drop n (in_row self.old) }
    {
        let gone = n.min(self.count);
        self.blocks.copy_within(gone..self.count, 0);
        self.count -= gone;
    }

    // The oldest block leaves.
    pub(crate) fn pop(&mut self) -> Option<Block>
        ensures answers { option_map octets_in result ≡ at (in_row self.old) 0 }
        ensures leaves { in_row self.new ≡ drop 1 (in_row self.old) }
    {
        let oldest = *self.blocks().first()?;
        self.shed(1);
        Some(oldest)
    }
}
