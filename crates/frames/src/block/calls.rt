ghost use Rattle.std.specs.Prelude.{◌≡◌, leb, length, if◌then◌else◌, Some, None, nat_le};
ghost use Rattle.std.specs.Option.{option_map};
ghost use Rattle.frames.specs.Blocks.{octets_in, empty_block};

use super::Block;

impl Block {
    // The block of no octets.
    pub fn empty() -> Block
        ensures { result ≡ empty_block }
    {
        Block {
            octets: [0; 64],
            len: 0,
        }
    }

    // A block of these octets, if there are at most 64.
    pub fn of(octets: &[u8]) -> Option<Block>
        ensures { option_map octets_in result ≡ (if leb (length octets.now) 64 then Some octets.now else None) }
    {
        let n = octets.len();
        if n > 64 {
            return None;
        }
        let mut all = [0; 64];
        all[0..n].copy_from_slice(octets);
        Some(Block {
            octets: all,
            len: n,
        })
    }

    // Holds these octets from now on, if there are at most 64; otherwise answers no and stays as it was.
    // (A Result would be no plainer: there is one reason for no, and nothing beside a yes.)
    pub fn write(&mut self, octets: &[u8]) -> bool
        ensures answers { result ≡ nat_le (length octets.now) 64 }
        ensures leaves { octets_in self.new ≡ (if result then octets.now else octets_in self.old) }
    {
        let n = octets.len();
        if n > 64 {
            return false;
        }
        self.octets[0..n].copy_from_slice(octets);
        self.len = n;
        true
    }

    // How many octets it has.
    pub fn len(&self) -> usize
        ensures { result ≡ length (octets_in self.now) }
    {
        self.octets().len()
    }

    // Its octets.
    pub fn octets(&self) -> &[u8]
        ensures { result.now ≡ octets_in self.now }
    {
        &self.octets[0..self.len]
    }
}
