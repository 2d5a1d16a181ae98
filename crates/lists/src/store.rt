// The body of values that are in order, block by block.
ghost use Rattle.std.specs.Prelude.{◌≡◌, true, ◌≤◌, leb, length, replicate};
ghost use Rattle.layout.specs.Layout.{block_size, is_lanes};
ghost use Rattle.answers.specs.Answers.{over};
ghost use Rattle.order.specs.Order.{entries_of, after_all};
ghost use Rattle.bodies.specs.List.{most};
ghost use Rattle.bodies.specs.Body.{block, body_of};

use blocks::{compress, compressed_block_size, num_bits};
use lanes::Lanes;
use modes::Mode;
use order::{after, next_entry};

// The entries of a block's values, and 0 behind them: "The last block is filled up with entries of 0." (An array: the project has no heap.)
fn filled_entries(mode: Mode, values: &[u32]) -> [u32; 256]
    requires { length values.now ≤ 256 }
    ensures { result ≡ over (entries_of mode values.now) (replicate 256 0) }
{
    let mut block = [0u32; 256];
    let mut running = mode;
    for (i, &v) in values.iter().enumerate() {
        block[i] = next_entry(running, v);
        running = after(running, v);
    }
    block
}

// The mode past some values: that past the last of them.
#[tactic(auto, unfolding(order::specs::Order::after_all))]
fn past(mode: Mode, values: &[u32]) -> Mode
    ensures { result ≡ after_all mode values.now }
{
    match values.last() {
        Some(&v) => after(mode, v),
        None => mode,
    }
}

// The length of the block of some values. (Measuring and storing stay two functions: the room is asked before anything is written.)
fn length_of(lanes: Lanes, mode: Mode, values: &[u32]) -> usize
    requires { length values.now ≤ block_size lanes }
    ensures { result ≡ length (block lanes (entries_of mode values.now)) }
{
    let count = lanes.count();
    let block = filled_entries(mode, values);
    let width = num_bits(count, Mode::Plain, &block[..lanes.block_size()]).unwrap();
    1 + compressed_block_size(count, width).unwrap()
}

// The length of the body of some values. (No plainer as a fold: the mode goes on with the sum.)
pub(crate) fn body_length(lanes: Lanes, mode: Mode, values: &[u32]) -> usize
    requires { length values.now ≤ most }
    ensures { result ≡ length (body_of lanes mode values.now) }
{
    let mut running = mode;
    let mut total = 0;
    for part in values.chunks(lanes.block_size()) {
        total += length_of(lanes, running, part);
        running = past(running, part);
    }
    total
}

// The length of the longest body: 128 blocks of 129 bytes, with 1 lane.
const LONGEST: usize = 16512;

// Whether the body of some values fits. It is measured only where a longer one might not. (Tried without `is_lanes`, and the proof did not
// close: of an argument it is not told what the type `Lanes` says.)
pub(crate) fn has_room(lanes: Lanes, mode: Mode, values: &[u32], room: usize) -> bool
    requires { (is_lanes lanes ≡ true) × (length values.now ≤ most) }
    ensures { result ≡ leb (length (body_of lanes mode values.now)) room }
{
    if LONGEST <= room {
        return true;
    }
    body_length(lanes, mode, values) <= room
}

// The block of some values, at the front of `body`: its width, and its payload. Answers its length.
fn store_block(lanes: Lanes, mode: Mode, values: &[u32], body: &mut [u8]) -> usize
    requires { (length values.now ≤ block_size lanes) × (length (block lanes (entries_of mode values.now)) ≤ length body.old) }
    ensures value { result ≡ length (block lanes (entries_of mode values.now)) }
    ensures body_after { body.new ≡ over (block lanes (entries_of mode values.now)) body.old }
{
    let count = lanes.count();
    let block = filled_entries(mode, values);
    let entries = &block[..lanes.block_size()];
    let width = num_bits(count, Mode::Plain, entries).unwrap();
    body[0] = width as u8;
    1 + compress(count, Mode::Plain, entries, &mut body[1..], width).unwrap()
}

// The body of some values, at the front of `body`. Answers its length. (No plainer as a fold: each block is written behind those before, and the
// mode goes on.)
pub(crate) fn store_body(lanes: Lanes, mode: Mode, values: &[u32], body: &mut [u8]) -> usize
    requires { length (body_of lanes mode values.now) ≤ length body.old }
    ensures value { result ≡ length (body_of lanes mode values.now) }
    ensures body_after { body.new ≡ over (body_of lanes mode values.now) body.old }
{
    let mut running = mode;
    let mut done = 0;
    for part in values.chunks(lanes.block_size()) {
        done += store_block(lanes, running, part, &mut body[done..]);
        running = past(running, part);
    }
    done
}
