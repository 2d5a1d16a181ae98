// The frame of a block: its width byte, and whether its payload is there.
ghost use Rattle.std.specs.Prelude.{◌≡◌, ◌+◌, ◌≤◌, length, take, IfOk};
ghost use Rattle.layout.specs.Layout.{block_size, payload_size};
ghost use Rattle.answers.specs.Answers.{answer};
ghost use Rattle.bodies.specs.Body.{block_count};
ghost use Rattle.bodies.specs.Reading.{width_at, frame_refusal};
ghost use Rattle.blocks.specs.Calls.{unpacked};

use answers::Refusal;
use blocks::decompress;
use lanes::{Lanes, Width};
use modes::Mode;

// "A body holds ceil(count / B) blocks one after another."
pub(crate) fn block_count(lanes: Lanes, count: usize) -> usize
    ensures { result ≡ block_count lanes count }
{
    count.div_ceil(lanes.block_size())
}

// The width byte and the payload.
pub(crate) fn block_length(lanes: Lanes, width: Width) -> usize
    ensures { result ≡ 1 + payload_size lanes width }
{
    1 + lanes.payload_size(width)
}

// 5, 2, 5: the width of the whole block that the bytes begin with.
#[tactic(auto, unfolding(bodies::specs::Reading::frame_refusal))]
pub(crate) fn framed(lanes: Lanes, bytes: &[u8]) -> Result<Width, Refusal>
    ensures value { result ≡ answer (frame_refusal lanes bytes.now) (width_at bytes.now) }
    ensures whole { IfOk result (λ width. 1 + payload_size lanes width ≤ length bytes.now) }
{
    let Some(&byte) = bytes.first() else {
        return Err(Refusal::CutShort);
    };
    let width = Width::new(u32::from(byte))?;
    if bytes.len() < block_length(lanes, width) {
        return Err(Refusal::CutShort);
    }
    Ok(width)
}

// The values of a payload, in a block of the reader's own.
// (An array: document 01, "unpacked into a block of 256 numbers of the reader's own".)
pub(crate) fn own_block(lanes: Lanes, mode: Mode, width: Width, payload: &[u8]) -> [u32; 256]
    requires { payload_size lanes width ≤ length payload.now }
    ensures room { block_size lanes ≤ length result }
    ensures front { take (block_size lanes) result ≡ unpacked lanes mode payload.now width }
{
    let mut block = [0u32; 256];
    decompress(lanes.count(), mode, payload, &mut block, width.bits()).unwrap();
    block
}
