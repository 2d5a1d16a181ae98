// The input of a case, made from its pieces. A piece is bytes in hex, and behind them, where they repeat, `*` and how many times.
ghost use Rattle.std.specs.Prelude.{◌≤◌, length};

use tables::decode;
use tables::words::{before, behind, decimal};

// The bytes that a hex number stands for, so many times, no more than there is room for. Answers how many.
fn repeat(text: &[u8], times: usize, bytes: &mut [u8]) -> usize
    ensures { result ≤ length bytes.new }
{
    let mut size = 0;
    for _ in 0..times {
        size += decode(text, &mut bytes[size..]);
    }
    size
}

// How many times: the number behind the `*`, and once where there is none.
// (No `Option`: a number of a million or more is once too, so that one arm stands for both.)
fn times(piece: &[u8]) -> usize {
    match decimal(behind(b'*', piece)) {
        times @ 0..1000000 => times as usize,
        _ => 1,
    }
}

// The bytes of a piece. Answers how many.
fn put_piece(piece: &[u8], bytes: &mut [u8]) -> usize
    ensures { result ≤ length bytes.new }
{
    repeat(before(b'*', piece), times(piece), bytes)
}

// The bytes of all pieces, each with a blank before it. Answers how many.
pub(crate) fn put_pieces(text: &[u8], bytes: &mut [u8]) -> usize
    ensures { result ≤ length bytes.new }
{
    let mut size = 0;
    for piece in text.split(|letter| *letter == b' ').skip(1) {
        size += put_piece(piece, &mut bytes[size..]);
    }
    size
}
