// The calls for C and Rust: what `include/sisalshed.h` declares. Each hands one call of ours on and asks nothing of the numbers, lengths
// and bytes that it is given. A kind that is not 0 to 3 is 12, before every other number.
// (`as` between `u32` and `usize`: there is no `From` between them.)
#![tactic(auto)]

ghost use Rattle.std.specs.Prelude.{◌≡◌, length};
ghost use Rattle.sisalshed.specs.Calls.{size_crossed, pack_crossed, pack_left, unpack_crossed, unpack_left, width_crossed, measure_crossed, write_list_crossed, write_list_left, read_list_crossed, read_list_left, header_crossed, body_crossed, read_file_crossed, read_file_left, write_file_crossed, write_file_left};

use crossing::{bad_kind, mode_of};

mod crossing;

// The number of the refusal, and the length, the count or the width: 0 where it is refused. (The C interface, and so for the two below.)
#[repr(C)]
#[derive(Clone, Copy, Debug, PartialEq, Eq)]
pub struct CAnswer {
    pub number: u32,
    pub length: usize,
}

// What a file's five lines say, the mode as two numbers; all 0 but the number where it is refused.
#[repr(C)]
#[derive(Clone, Copy, Debug, Default, PartialEq, Eq)]
pub struct CHeader {
    pub number: u32,
    pub lanes: u32,
    pub kind: u32,
    pub first: u32,
    pub count: u32,
    pub bytes: u32,
}

// Where a body stands in its file: 0 and 0 where it is refused.
#[repr(C)]
#[derive(Clone, Copy, Debug, Default, PartialEq, Eq)]
pub struct CBody {
    pub number: u32,
    pub start: usize,
    pub length: usize,
}

// Payload size: how many bytes a packed block has.
#[unsafe(no_mangle)]
pub extern "C" fn sisalshed_compressed_block_size(lanes: usize, width: u32) -> CAnswer
    ensures { result ≡ size_crossed lanes width }
{
    blocks::compressed_block_size(lanes, width).into()
}

// Pack: the payload of exactly a block of values, at the front of `compressed`.
#[unsafe(no_mangle)]
pub extern "C" fn sisalshed_compress(
    lanes: usize,
    kind: u32,
    first: u32,
    decompressed: &[u32],
    compressed: &mut [u8],
    width: u32,
) -> CAnswer
    ensures value { result ≡ pack_crossed lanes kind first decompressed.now (length compressed.old) width }
    ensures compressed_after { compressed.new ≡ pack_left lanes kind first decompressed.now compressed.old width }
{
    let Some(mode) = mode_of(kind, first) else {
        return bad_kind();
    };
    blocks::compress(lanes, mode, decompressed, compressed, width).into()
}

// Unpack: the values of any bytes that are long enough, at the front of `decompressed`.
#[unsafe(no_mangle)]
pub extern "C" fn sisalshed_decompress(
    lanes: usize,
    kind: u32,
    first: u32,
    compressed: &[u8],
    decompressed: &mut [u32],
    width: u32,
) -> CAnswer
    ensures value { result ≡ unpack_crossed lanes kind first (length compressed.now) (length decompressed.old) width }
    ensures decompressed_after { decompressed.new ≡ unpack_left lanes kind first compressed.now decompressed.old width }
{
    let Some(mode) = mode_of(kind, first) else {
        return bad_kind();
    };
    blocks::decompress(lanes, mode, compressed, decompressed, width).into()
}

// Least width: the least number of bits that exactly a block of values fits, in the length's place.
#[unsafe(no_mangle)]
pub extern "C" fn sisalshed_num_bits(
    lanes: usize,
    kind: u32,
    first: u32,
    decompressed: &[u32],
) -> CAnswer
    ensures { result ≡ width_crossed lanes kind first decompressed.now }
{
    let Some(mode) = mode_of(kind, first) else {
        return bad_kind();
    };
    blocks::num_bits(lanes, mode, decompressed)
        .map(|width| width as usize)
        .into()
}

// The length of the body that a list has.
#[unsafe(no_mangle)]
pub extern "C" fn sisalshed_measure_list(
    lanes: usize,
    kind: u32,
    first: u32,
    values: &[u32],
) -> CAnswer
    ensures { result ≡ measure_crossed lanes kind first values.now }
{
    let Some(mode) = mode_of(kind, first) else {
        return bad_kind();
    };
    lists::measure(lanes, mode, values).into()
}

// Write a list: its body, at the front of `body`. Answers the body's length.
#[unsafe(no_mangle)]
pub extern "C" fn sisalshed_write_list(
    lanes: usize,
    kind: u32,
    first: u32,
    values: &[u32],
    body: &mut [u8],
) -> CAnswer
    ensures value { result ≡ write_list_crossed lanes kind first values.now (length body.old) }
    ensures body_after { body.new ≡ write_list_left lanes kind first values.now body.old }
{
    let Some(mode) = mode_of(kind, first) else {
        return bad_kind();
    };
    lists::write(lanes, mode, values, body).into()
}

// Read a list: the values of a body, at the front of `values`. Answers the count.
#[unsafe(no_mangle)]
pub extern "C" fn sisalshed_read_list(
    lanes: usize,
    kind: u32,
    first: u32,
    count: usize,
    body: &[u8],
    values: &mut [u32],
) -> CAnswer
    ensures value { result ≡ read_list_crossed lanes kind first count body.now (length values.old) }
    ensures values_after { values.new ≡ read_list_left lanes kind first count body.now values.old }
{
    let Some(mode) = mode_of(kind, first) else {
        return bad_kind();
    };
    lists::read(lanes, mode, count, body, values).into()
}

// The header call: what the five lines of a file say, or 12.
#[unsafe(no_mangle)]
pub extern "C" fn sisalshed_header(file: &[u8]) -> CHeader
    ensures { result ≡ header_crossed file.now }
{
    files::header(file).into()
}

// Where the body of a file stands, or 12. (No `From`: its length is known of the file, and not of what was found.)
#[unsafe(no_mangle)]
pub extern "C" fn sisalshed_body(file: &[u8]) -> CBody
    ensures { result ≡ body_crossed file.now }
{
    match files::find_file(file) {
        Ok(found) => CBody {
            number: 0,
            start: found.start,
            length: file.len() - found.start,
        },
        Err(refusal) => CBody {
            number: refusal.number(),
            ..CBody::default()
        },
    }
}

// Read a file: the list that it holds, at the front of `values`. Answers the count.
#[unsafe(no_mangle)]
pub extern "C" fn sisalshed_read_file(file: &[u8], values: &mut [u32]) -> CAnswer
    ensures value { result ≡ read_file_crossed file.now (length values.old) }
    ensures values_after { values.new ≡ read_file_left file.now values.old }
{
    files::read(file, values).into()
}

// Write a file: the header and the body of a list, at the front of `file`. Answers the file's length.
#[unsafe(no_mangle)]
pub extern "C" fn sisalshed_write_file(
    lanes: usize,
    kind: u32,
    first: u32,
    values: &[u32],
    file: &mut [u8],
) -> CAnswer
    ensures value { result ≡ write_file_crossed lanes kind first values.now (length file.old) }
    ensures file_after { file.new ≡ write_file_left lanes kind first values.now file.old }
{
    let Some(mode) = mode_of(kind, first) else {
        return bad_kind();
    };
    files::write(lanes, mode, values, file).into()
}
