// The library for C: what `include/sisalshed.h` declares. Each function is the one of the same name in the crate `sisalshed`, with its clauses;
// a crate is a library for Rattle or one for C, and not both.
#![tactic(auto)]

ghost use Rattle.std.specs.Prelude.{◌≡◌, length};
ghost use Rattle.sisalshed.specs.Calls.{size_crossed, pack_crossed, pack_left, unpack_crossed, unpack_left, width_crossed, measure_crossed, write_list_crossed, write_list_left, read_list_crossed, read_list_left, header_crossed, body_crossed, read_file_crossed, read_file_left, write_file_crossed, write_file_left};

use sisalshed::{CAnswer, CBody, CHeader};

// Payload size: how many bytes a packed block has.
#[unsafe(no_mangle)]
pub extern "C" fn sisalshed_compressed_block_size(lanes: usize, width: u32) -> CAnswer
    ensures { result ≡ size_crossed lanes width }
{
    sisalshed::sisalshed_compressed_block_size(lanes, width)
}

// Pack: the payload of exactly a block of values, at the front of `compressed`.
#[unsafe(no_mangle)]
pub extern "C" fn sisalshed_compress(
    lanes: usize,
    kind: u32,
    first: u32,
    decompressed: &[u32],
    compressed: &mut [u8],
    width: u32,
) -> CAnswer
    ensures value { result ≡ pack_crossed lanes kind first decompressed.now (length compressed.old) width }
    ensures compressed_after { compressed.new ≡ pack_left lanes kind first decompressed.now compressed.old width }
{
    sisalshed::sisalshed_compress(lanes, kind, first, decompressed, compressed, width)
}

// Unpack: the values of any bytes that are long enough, at the front of `decompressed`.
#[unsafe(no_mangle)]
pub extern "C" fn sisalshed_decompress(
    lanes: usize,
    kind: u32,
    first: u32,
    compressed: &[u8],
    decompressed: &mut [u32],
    width: u32,
) -> CAnswer
    ensures value { result ≡ unpack_crossed lanes kind first (length compressed.now) (length decompressed.old) width }
    ensures decompressed_after { decompressed.new ≡ unpack_left lanes kind first compressed.now decompressed.old width }
{
    sisalshed::sisalshed_decompress(lanes, kind, first, compressed, decompressed, width)
}

// Least width: the least number of bits that exactly a block of values fits, in the length's place.
#[unsafe(no_mangle)]
pub extern "C" fn sisalshed_num_bits(
    lanes: usize,
    kind: u32,
    first: u32,
    decompressed: &[u32],
) -> CAnswer
    ensures { result ≡ width_crossed lanes kind first decompressed.now }
{
    sisalshed::sisalshed_num_bits(lanes, kind, first, decompressed)
}

// The length of the body that a list has.
#[unsafe(no_mangle)]
pub extern "C" fn sisalshed_measure_list(
    lanes: usize,
    kind: u32,
    first: u32,
    values: &[u32],
) -> CAnswer
    ensures { result ≡ measure_crossed lanes kind first values.now }
{
    sisalshed::sisalshed_measure_list(lanes, kind, first, values)
}

// Write a list: its body, at the front of `body`. Answers the body's length.
#[unsafe(no_mangle)]
pub extern "C" fn sisalshed_write_list(
    lanes: usize,
    kind: u32,
    first: u32,
    values: &[u32],
    body: &mut [u8],
) -> CAnswer
    ensures value { result ≡ write_list_crossed lanes kind first values.now (length body.old) }
    ensures body_after { body.new ≡ write_list_left lanes kind first values.now body.old }
{
    sisalshed::sisalshed_write_list(lanes, kind, first, values, body)
}

// Read a list: the values of a body, at the front of `values`. Answers the count.
#[unsafe(no_mangle)]
pub extern "C" fn sisalshed_read_list(
    lanes: usize,
    kind: u32,
    first: u32,
    count: usize,
    body: &[u8],
    values: &mut [u32],
) -> CAnswer
    ensures value { result ≡ read_list_crossed lanes kind first count body.now (length values.old) }
    ensures values_after { values.new ≡ read_list_left lanes kind first count body.now values.old }
{
    sisalshed::sisalshed_read_list(lanes, kind, first, count, body, values)
}

// The header call: what the five lines of a file say, or 12.
#[unsafe(no_mangle)]
pub extern "C" fn sisalshed_header(file: &[u8]) -> CHeader
    ensures { result ≡ header_crossed file.now }
{
    sisalshed::sisalshed_header(file)
}

// Where the body of a file stands, or 12.
#[unsafe(no_mangle)]
pub extern "C" fn sisalshed_body(file: &[u8]) -> CBody
    ensures { result ≡ body_crossed file.now }
{
    sisalshed::sisalshed_body(file)
}

// Read a file: the list that it holds, at the front of `values`. Answers the count.
#[unsafe(no_mangle)]
pub extern "C" fn sisalshed_read_file(file: &[u8], values: &mut [u32]) -> CAnswer
    ensures value { result ≡ read_file_crossed file.now (length values.old) }
    ensures values_after { values.new ≡ read_file_left file.now values.old }
{
    sisalshed::sisalshed_read_file(file, values)
}

// Write a file: the header and the body of a list, at the front of `file`. Answers the file's length.
#[unsafe(no_mangle)]
pub extern "C" fn sisalshed_write_file(
    lanes: usize,
    kind: u32,
    first: u32,
    values: &[u32],
    file: &mut [u8],
) -> CAnswer
    ensures value { result ≡ write_file_crossed lanes kind first values.now (length file.old) }
    ensures file_after { file.new ≡ write_file_left lanes kind first values.now file.old }
{
    sisalshed::sisalshed_write_file(lanes, kind, first, values, file)
}
