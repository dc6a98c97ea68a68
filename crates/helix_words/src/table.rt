//! The table of the lengths of rests.

ghost use Rattle.std.specs.Prelude.{◌≡◌, ◌<◌, ◌/◌, ◌↔◌, min, length, IsTrue};
ghost use Rattle.std.specs.List.{All};
ghost use Rattle.helix_words.specs.Inner.Table.{bit_of, has_bit};

use helix_base::List;

/// 64 bits for each state.
pub type Block = List<u64>;

/// For each state and each length up to a stable one, whether some rest of this length leads on from the state. What
/// is so of the stable length is so of all greater ones. Each block has 64 lengths.
#[derive(Debug, Drop)]
pub struct Table {
    pub blocks: List<Block>,
    pub stable: u32,
}

impl Table {
    /// The bit of a length and a state.
    #[inline(always)]
    pub fn has_rest(&self, state: u32, count: u32) -> bool
        requires blocks { self.now.stable / 64 < length self.now.blocks }
        requires states { All (λ block. state < length block) self.now.blocks }
        ensures { IsTrue result ↔ (bit_of self.now.blocks state (min count self.now.stable) ≡ 1) }
    {
        let count = count.min(self.stable);
        let block = self.blocks.as_slice()[(count / 64) as usize].as_slice();
        (block[state as usize] >> (count % 64)) & 1 == 1
    }

    /// Whether a state has a bit.
    pub fn is_live(&self, state: u32) -> bool
        requires { All (λ block. state < length block) self.now.blocks }
        ensures { result ≡ has_bit self.now.blocks state }
    {
        for block in self.blocks.as_slice() {
            if block.as_slice()[state as usize] != 0 {
                return true;
            }
        }
        false
    }
}
