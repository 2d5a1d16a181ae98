// Packing a block (the Rust's `pack` and `pack_32`).
ghost use Rattle.std.specs.Prelude.{◌≡◌, true, List, ℕ, ◌+◌, ◌^◌, ◌≤◌, ◌<◌, length};
ghost use Rattle.layout.specs.Layout.{at, block_size, payload_size, packed};
ghost use Rattle.answers.specs.Answers.{over};
ghost use Rattle.layout.specs.Width.{fits};
ghost use Rattle.blocks.specs.kernel.Blocks.{entries_in};
ghost use Rattle.blocks.specs.kernel.Places.{RowOf};
ghost use Rattle.blocks.specs.kernel.Registers.{Packing};

use crate::block::Block;
use crate::words::store_words;
use lanes::scalar::{left_shift_32, op_or, right_shift_32, set1};
use lanes::{Lanes, Width};
use modes::{initial_value, transform};

// Puts row `row` of entries on top of the bits that are held, stores the words that are full, and hands back the bits that are held then.
// e stands for the entries of the block, whichever it is, and `before` for the output as the block found it.
fn pack_row(
    lanes: Lanes,
    out: &mut [u8],
    width: Width,
    row: u32,
    held: [u32; 8],
    entries: [u32; 8],
) -> [u32; 8]
    requires room { (row < 32) × (payload_size lanes width ≤ length out.old) }
    requires narrow { (l : ℕ) → l < lanes → at entries l < 2 ^ width }
    ensures { (e : ℕ → ℕ) (before : List ℕ) → RowOf lanes e row entries → Packing lanes width e before row held out.old → Packing lanes width e before (row + 1) result out.new }
{
    let used = lanes.count();
    let width = width.bits();
    let start = row * width;
    let inner_cursor = start % 32;
    let remaining = 32 - inner_cursor;
    let out_register = op_or(held, left_shift_32(entries, inner_cursor));
    if width < remaining {
        return out_register;
    }
    store_words(out, (start / 32) as usize * used, lanes, out_register);
    right_shift_32(entries, remaining)
}

impl<'a> Block<'a> {
    // Each row of values becomes a row of entries, which goes on top of the rows before it.
    pub(crate) fn pack(&self, out: &mut [u8], width: Width)
        requires room { payload_size self.now.lanes width ≤ length out.old }
        requires narrow { fits (entries_in self.now) (block_size self.now.lanes) width ≡ true }
        ensures { out.new ≡ over (packed self.now.lanes width (entries_in self.now)) out.old }
    {
        let used = self.lanes.count();
        let mut previous = set1(initial_value(self.mode));
        let mut held = set1(0);
        // (No plainer as a fold: it would carry the row before and the bits held, and store besides.)
        for row in 0..32 {
            let current = self.row(row as usize * used);
            let entries = transform(self.mode, current, previous, used);
            let rest = pack_row(self.lanes, out, width, row, held, entries);
            previous = current;
            held = rest;
        }
    }
}
