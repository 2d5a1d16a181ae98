// What the programs of checks share that read a table on standard input: its lines, checksums, bytes in hex, the words of a line, buffers that
// are full of marks, and what is written of an answer.
#![tactic(auto)]

ghost use Rattle.std.specs.Prelude.{◌≡◌, ℕ, ◌+◌, ◌*◌, ◌/◌, ◌%◌, ◌<◌, ◌≤◌, min, IfOk, List, length, take};
ghost use Rattle.std.specs.Fn.{CalledAt};
ghost use Rattle.std.specs.Io.KnownBytes.{Consumes};
ghost use Rattle.layout.specs.Layout.{table};
ghost use Rattle.answers.specs.Answers.{over};
ghost use Rattle.tables.specs.Tables.{RanOn, Converts, sum_from, digit_of, hex_byte, noise_after};

use buffers::table_room;
use std::io;
use std::io::Read;
use streams::read_full;
use words::{before, behind};

pub mod buffers;
pub mod line;
pub mod words;

// Runs on each line of a text, until one fails. (No plainer by `split`, which has one line more, an empty one, behind the
// last byte 10, or by `split_inclusive`, whose pieces end in it.)
fn for_each_line_of<F: FnMut(&[u8]) -> io::Result<()>>(text: &[u8], mut run: F) -> io::Result<()>
    requires { F.IsAlwaysCallable run }
    ensures { IfOk result (λ _. RanOn (CalledAt F.FnMut) run text.now) }
{
    let mut rest = text;
    while !rest.is_empty() {
        run(before(b'\n', rest))?;
        rest = behind(b'\n', rest);
    }
    Ok(())
}

// Reads a table, and runs on each of its lines, until one fails.
pub fn for_each_line<R: Read, F: FnMut(&[u8]) -> io::Result<()>>(
    table: &mut R,
    run: F,
) -> io::Result<()>
    requires { F.IsAlwaysCallable run }
    ensures { IfOk result (λ _. (text : List ℕ) × Consumes (R.remaining table.old) (R.remaining table.new) text × RanOn (CalledAt F.FnMut) run text) }
{
    let mut room = table_room();
    let size = read_full(table, &mut room)?;
    for_each_line_of(&room[..size], run)
}

// A checksum with some bytes or values more in it.
#[tactic(auto, unfolding(crate::specs::Tables::sum_from))]
pub fn checksum_from<T: Copy + Into<u32>>(start: u32, items: &[T]) -> u32
    ensures { (number : T → ℕ) → Converts T.converts number → result ≡ sum_from number start items.now }
{
    items.iter().fold(start, |sum, item| {
        sum.wrapping_mul(31).wrapping_add((*item).into())
    })
}

// The checksum of some bytes or values.
pub fn checksum<T: Copy + Into<u32>>(items: &[T]) -> u32
    ensures { (number : T → ℕ) → Converts T.converts number → result ≡ sum_from number 0 items.now }
{
    checksum_from(0, items)
}

// What a letter of a hex number stands for; any other is 0, which `to_digit` would not say of A to F. (A switch on a letter of the input: each
// arm is one value.)
fn digit(letter: u8) -> u8
    ensures value { result ≡ digit_of letter }
    ensures upper_bound { result < 16 }
{
    match letter {
        b'0'..=b'9' => letter - b'0',
        b'a'..=b'f' => letter - b'a' + 10,
        _ => 0,
    }
}

// The bytes that a hex number stands for, at the front of `bytes`, no more than there is room for. Answers how many.
pub fn decode(hex: &[u8], bytes: &mut [u8]) -> usize
    ensures value { result ≡ min (length hex.now / 2) (length bytes.old) }
    ensures bytes_after { bytes.new ≡ over (table (hex_byte hex.now) (min (length hex.now / 2) (length bytes.old))) bytes.old }
    ensures upper_bound { (result ≤ length bytes.new) × (result ≡ length (take result bytes.new)) }
{
    let count = (hex.len() / 2).min(bytes.len());
    // (By place: tried over `as_chunks` and `iter_mut`, and the proof did not close.)
    for i in 0..count {
        bytes[i] = digit(hex[2 * i]) * 16 + digit(hex[2 * i + 1]);
    }
    count
}

// The next number of a small generator.
pub fn noise_after(number: u32) -> u32
    ensures { result ≡ noise_after number }
{
    number.wrapping_mul(1103515245).wrapping_add(12345)
}
