// Blocks: "A block has B = 32L values".
ghost use Rattle.std.specs.Prelude.{◌≡◌, ℕ, ◌+◌, ◌<◌, ◌≤◌, length};
ghost use Rattle.answers.specs.Answers.{answer};
ghost use Rattle.layout.specs.Layout.{at, block_size};
ghost use Rattle.blocks.specs.kernel.Blocks.{block_refusal};

use crate::rows::row_of;
use answers::Refusal;
use lanes::Lanes;
use modes::Mode;
use std::marker::Model;

// Exactly a block of values, in its lanes and its mode.
#[derive(Drop)]
pub(crate) struct Block<'a> {
    pub(crate) lanes: Lanes,
    pub(crate) mode: Mode,
    values: &'a [u32],
}

impl<'a> Model for Block<'a> {
    ghost use Rattle.std.specs.Prelude.{◌≡◌, ◌^◌, length};
    ghost use Rattle.layout.specs.Layout.{Below, block_size};
    ghost use Rattle.blocks.specs.kernel.Blocks.{BlockParts};

    ghost Value = { BlockParts };

    ghost view = { λ b. record { lanes = b.lanes; mode = b.mode; values = b.values.now } };

    ghost invariant = { λ b. (length b.values.now ≡ block_size b.lanes) × Below (2 ^ 32) b.values.now };
}

impl<'a> Block<'a> {
    // These values, or 3.
    pub(crate) fn new(lanes: Lanes, mode: Mode, values: &'a [u32]) -> Result<Block<'a>, Refusal>
        ensures { result ≡ answer (block_refusal lanes (length values.now)) (record { lanes = lanes; mode = mode; values = values.now }) }
    {
        if values.len() == lanes.block_size() {
            Ok(Block {
                lanes,
                mode,
                values,
            })
        } else {
            Err(Refusal::BadBlock)
        }
    }

    // The row of values from place `first` on, one for each lane in use.
    pub(crate) fn row(&self, first: usize) -> [u32; 8]
        requires { first + self.now.lanes ≤ block_size self.now.lanes }
        ensures { (l : ℕ) → l < self.now.lanes → at result l ≡ at self.now.values (first + l) }
    {
        row_of(self.lanes, |l| self.values[first + l])
    }
}
