// The blocks and bytes that are packed and unpacked, each made from the words of its case.
use crate::calls::{BYTES, VALUES};
use modes::{Mode, initial_value};
use tables::noise_after;
use tables::words::{amount, mode, narrow};

// Bytes of the generator.
pub(crate) fn noise(seed: u32) -> [u8; BYTES] {
    let mut bytes = [0; BYTES];
    let mut x = seed;
    for byte in bytes.iter_mut() {
        x = noise_after(x);
        *byte = (x / 65536 % 256) as u8;
    }
    bytes
}

// The value that has this entry. (No plainer by `order::next_value` and `order::after`: two calls and a mode that goes on, in place of a sum, and
// a crate more.)
fn value_after(mode: Mode, previous: u32, entry: u32) -> u32 {
    match mode {
        Mode::Plain => entry,
        Mode::Sorted(_) => previous.wrapping_add(entry),
        Mode::Strict(_) => previous.wrapping_add(entry).wrapping_add(1),
    }
}

// Values whose entries are all 0, but for the one at a place.
fn values_of(mode: Mode, place: usize, entry: u32) -> [u32; VALUES] {
    let mut values = [0; VALUES];
    let mut previous = initial_value(mode);
    for (k, value) in values.iter_mut().enumerate() {
        previous = value_after(mode, previous, if k == place { entry } else { 0 });
        *value = previous;
    }
    values
}

// The values of the words `place` and `entry`.
pub(crate) fn one_entry(line: &[u8]) -> [u32; VALUES] {
    values_of(
        mode(line),
        amount(b'p', line) as usize,
        narrow(amount(b'e', line)),
    )
}
