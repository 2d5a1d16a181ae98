// The values of a body whose blocks are all there, into the caller's output.
ghost use Rattle.std.specs.Prelude.{◌≡◌, true, ◌≤◌, length};
ghost use Rattle.layout.specs.Layout.{block_size};
ghost use Rattle.answers.specs.Answers.{over};
ghost use Rattle.answers.specs.Refusals.{accepted};
ghost use Rattle.order.specs.Order.{after_all};
ghost use Rattle.bodies.specs.Body.{block_count};
ghost use Rattle.bodies.specs.Reading.{values_at, frame_refusal, list_of};
ghost use Rattle.lists.specs.kernel.Steps.{frames_from};

use crate::framing::{block_length, framed, own_block};
use blocks::decompress;
use lanes::Lanes;
use modes::Mode;
use order::after;

// A full block, straight into the output. Answers the mode past it.
fn fetch_block(lanes: Lanes, mode: Mode, bytes: &[u8], values: &mut [u32]) -> Mode
    requires { (accepted (frame_refusal lanes bytes.now) ≡ true) × (block_size lanes ≤ length values.old) }
    ensures values_after { values.new ≡ over (values_at lanes mode (block_size lanes) bytes.now) values.old }
    ensures value { result ≡ after_all mode (values_at lanes mode (block_size lanes) bytes.now) }
{
    let width = framed(lanes, bytes).unwrap();
    decompress(
        lanes.count(),
        mode,
        &bytes[1..],
        &mut values[..],
        width.bits(),
    )
    .unwrap();
    after(mode, values[lanes.block_size() - 1])
}

// A last block that is not full, or any by itself, by way of a block of the reader's own: the output needs room for the count only.
pub(crate) fn fetch_last(lanes: Lanes, mode: Mode, count: usize, bytes: &[u8], values: &mut [u32])
    requires { (accepted (frame_refusal lanes bytes.now) ≡ true) × (count ≤ block_size lanes) × (count ≤ length values.old) }
    ensures { values.new ≡ over (values_at lanes mode count bytes.now) values.old }
{
    let width = framed(lanes, bytes).unwrap();
    let block = own_block(lanes, mode, width, &bytes[1..]);
    values[..count].copy_from_slice(&block[..count]);
}

// The list at the front of the values: full blocks from the running position onward, and then a last block that is not full.
// (The places are counted: document 01 wants each block unpacked into the part that begins at the values already written, and no plainer
// by `chunks_mut`: the place in the body would be counted all the same, and behind it no value that is left is known.)
pub(crate) fn fetch_body(lanes: Lanes, mode: Mode, count: usize, body: &[u8], values: &mut [u32])
    requires { (count ≤ length values.old) × (accepted (frames_from lanes body.now (block_count lanes count)) ≡ true) }
    ensures { values.new ≡ over (list_of lanes mode count body.now) values.old }
{
    let size = lanes.block_size();
    let mut running = mode;
    let mut place: usize = 0;
    let mut done: usize = 0;
    while size <= count - done {
        let bytes = &body[place..];
        let width = framed(lanes, bytes).unwrap();
        running = fetch_block(lanes, running, bytes, &mut values[done..]);
        place += block_length(lanes, width);
        done += size;
    }
    if done < count {
        fetch_last(
            lanes,
            running,
            count - done,
            &body[place..],
            &mut values[done..],
        );
    }
}
