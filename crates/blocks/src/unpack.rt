// Unpacking a block (the Rust's `unpack` and `unpack_32`). A row of entries is handed back, and its caller stores the values.
ghost use Rattle.std.specs.Prelude.{◌≡◌, ◌+◌, ◌*◌, ◌-◌, ◌^◌, ◌≤◌, ◌<◌, length};
ghost use Rattle.layout.specs.Layout.{block_size, payload_size, byte_bits, payload_entry};
ghost use Rattle.answers.specs.Answers.{over};
ghost use Rattle.blocks.specs.Calls.{unpacked};
ghost use Rattle.blocks.specs.kernel.Places.{RowOf};
ghost use Rattle.blocks.specs.kernel.Registers.{HoldsBits, bits_left};

use crate::rows::{row_of, store_row};
use crate::words::load_word;
use lanes::scalar::{left_shift_32, op_and, op_or, right_shift_32, set1};
use lanes::{Lanes, Width};
use modes::{Mode, initial_value, process};

// So many bits, all 1. (In 64 bits, where neither the shift nor the 1 taken off wraps. No plainer by `unbounded_shr` of all ones: it says the
// clause backwards.)
fn mask(width: Width) -> u32
    ensures { result ≡ 2 ^ width - 1 }
{
    ((1u64 << width.bits()) - 1) as u32
}

// Row `row` of a payload, from the bits that are left of the words read, and the bits that are left then. The next words are read only where
// these do not reach.
fn unpack_row(
    lanes: Lanes,
    bytes: &[u8],
    width: Width,
    row: u32,
    held: [u32; 8],
) -> ([u32; 8], [u32; 8])
    requires room { (row < 32) × (payload_size lanes width ≤ length bytes.now) }
    requires holds_bits { HoldsBits lanes (byte_bits lanes bytes.now) (row * width) (bits_left width row) held }
    ensures row_of { RowOf lanes (payload_entry lanes width bytes.now) row result.0 }
    ensures rest_holds { HoldsBits lanes (byte_bits lanes bytes.now) ((row + 1) * width) (bits_left width (row + 1)) result.1 }
{
    let used = lanes.count();
    let ones = set1(mask(width));
    let width = width.bits();
    let start = row * width;
    let word = start.div_ceil(32);
    let left = 32 * word - start;
    if width <= left {
        return (op_and(held, ones), right_shift_32(held, width));
    }
    let first = word as usize * used;
    let in_register = row_of(lanes, |l| load_word(bytes, 4 * (first + l)));
    let entries = op_and(op_or(held, left_shift_32(in_register, left)), ones);
    (entries, right_shift_32(in_register, width - left))
}

// Each row of entries becomes a row of values on top of the row before, and is stored.
pub(crate) fn unpack(lanes: Lanes, mode: Mode, bytes: &[u8], out: &mut [u32], width: Width)
    requires { (payload_size lanes width ≤ length bytes.now) × (block_size lanes ≤ length out.old) }
    ensures { out.new ≡ over (unpacked lanes mode bytes.now width) out.old }
{
    let used = lanes.count();
    let mut current = set1(initial_value(mode));
    let mut held = set1(0);
    // (No plainer as a fold: it would carry the row before and the bits held, and store besides.)
    for row in 0..32 {
        let (entries, rest) = unpack_row(lanes, bytes, width, row, held);
        let values = process(mode, current, entries, used);
        store_row(out, row as usize * used, lanes, values);
        current = values;
        held = rest;
    }
}
