// The four block calls of document 01. Each takes any input, tests it in the order of "Numbers of refusal", and writes nothing where it refuses.
// (`as` between `u32` and `usize`: there is no `From` between them.)
#![tactic(auto)]

ghost use Rattle.std.specs.Prelude.{◌≡◌, length};
ghost use Rattle.blocks.specs.Calls.{size_answer, pack_answer, pack_output, unpack_answer, unpack_output, width_answer};

use answers::{Answer, Refusal};
use block::Block;
use lanes::{Lanes, Width};
use modes::Mode;
use unpack::unpack;

mod block;
mod least_width;
mod pack;
mod rows;
mod unpack;
mod words;

// (Lanes and width are numbers here, and not the types: README and docs/CALLS.md say that the calls take any. That a payload is long enough
// stands in clauses further in, and not in a type: packing is lent it to write and unpacking to read, which would be two types.)

// Payload size: how many bytes a packed block has.
pub fn compressed_block_size(lanes: usize, width: u32) -> Answer
    ensures { result ≡ size_answer lanes width }
{
    let lanes = Lanes::new(lanes)?;
    let width = Width::new(width)?;
    Ok(lanes.payload_size(width))
}

// Pack: the payload of exactly a block of values, at the front of `compressed`.
pub fn compress(
    lanes: usize,
    mode: Mode,
    decompressed: &[u32],
    compressed: &mut [u8],
    width: u32,
) -> Answer
    ensures value { result ≡ pack_answer lanes mode decompressed.now (length compressed.old) width }
    ensures compressed_after { compressed.new ≡ pack_output lanes mode decompressed.now compressed.old width }
{
    let few = Lanes::new(lanes)?;
    let width = Width::new(width)?;
    let block = Block::new(few, mode, decompressed)?;
    let size = few.payload_size(width);
    if compressed.len() < size {
        return Err(Refusal::NoRoom);
    }
    if !block.fits(width) {
        return Err(Refusal::TooWide);
    }
    block.pack(compressed, width);
    Ok(size)
}

// Unpack: the values of any bytes that are long enough, at the front of `decompressed`.
pub fn decompress(
    lanes: usize,
    mode: Mode,
    compressed: &[u8],
    decompressed: &mut [u32],
    width: u32,
) -> Answer
    ensures value { result ≡ unpack_answer lanes (length compressed.now) (length decompressed.old) width }
    ensures decompressed_after { decompressed.new ≡ unpack_output lanes mode compressed.now decompressed.old width }
{
    let lanes = Lanes::new(lanes)?;
    let width = Width::new(width)?;
    if decompressed.len() < lanes.block_size() {
        return Err(Refusal::NoRoom);
    }
    let size = lanes.payload_size(width);
    if compressed.len() < size {
        return Err(Refusal::CutShort);
    }
    unpack(lanes, mode, compressed, decompressed, width);
    Ok(size)
}

// Least width: the least number of bits that exactly a block of values fits.
pub fn num_bits(lanes: usize, mode: Mode, decompressed: &[u32]) -> Result<u32, Refusal>
    ensures { result ≡ width_answer lanes mode decompressed.now }
{
    let lanes = Lanes::new(lanes)?;
    Ok(Block::new(lanes, mode, decompressed)?.least_width())
}
