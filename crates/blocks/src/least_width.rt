// Finding the least width (the Rust's `num_bits`, `num_bits_sorted` and `num_bits_strictly_sorted`).
ghost use Rattle.std.specs.Prelude.{◌≡◌, ℕ, ◌+◌, ◌*◌, ◌<◌, leb};
ghost use Rattle.layout.specs.Layout.{at, block_size};
ghost use Rattle.layout.specs.Width.{fits, least_width, or_all};
ghost use Rattle.blocks.specs.kernel.Blocks.{entries_in};

use crate::block::Block;
use lanes::scalar::{op_or, or_collapse_to_u32, set1};
use lanes::{Width, most_significant_bit};
use modes::{initial_value, transform};

impl<'a> Block<'a> {
    // The entries of each lane, or-ed together.
    fn accumulate(&self) -> [u32; 8]
        ensures { (l : ℕ) → l < self.now.lanes → at result l ≡ or_all (λ i. entries_in self.now (i * self.now.lanes + l)) 32 }
    {
        let used = self.lanes.count();
        let mut previous = set1(initial_value(self.mode));
        let mut accumulator = set1(0);
        // (No plainer as a fold: it would carry the row before beside what is or-ed.)
        for row in 0..32 {
            let current = self.row(row * used);
            let joined = op_or(accumulator, transform(self.mode, current, previous, used));
            previous = current;
            accumulator = joined;
        }
        accumulator
    }

    // The least width of the block, which fits the widths from that one on.
    pub(crate) fn least_width(&self) -> u32
        ensures exactly { (n : ℕ) → fits (entries_in self.now) (block_size self.now.lanes) n ≡ leb result n }
        ensures value { result ≡ least_width (entries_in self.now) (block_size self.now.lanes) }
    {
        most_significant_bit(or_collapse_to_u32(self.accumulate(), self.lanes.count()))
    }

    // Whether the block fits the width.
    pub(crate) fn fits(&self, width: Width) -> bool
        ensures { result ≡ fits (entries_in self.now) (block_size self.now.lanes) width }
    {
        self.least_width() <= width.bits()
    }
}
