// The eleven calls, each with the arguments of its line.
use crate::shown::{on_bytes, on_values, show_body, show_header, show_read, show_written};
use sisalshed::{
    sisalshed_compress, sisalshed_compressed_block_size, sisalshed_decompress,
    sisalshed_measure_list, sisalshed_num_bits, sisalshed_read_file, sisalshed_read_list,
    sisalshed_write_file, sisalshed_write_list,
};
use std::io;
use tables::words::{amount, letter_at, narrow};

#[derive(Clone, Copy)]
pub(crate) enum Call {
    BlockSize,
    Compress,
    Decompress,
    NumBits,
    MeasureList,
    WriteList,
    ReadList,
    Header,
    Body,
    ReadFile,
    WriteFile,
}

// The calls on values. (A `match` on a letter: it is the input's, and each arm is one call.)
fn of_values(letter: u8) -> Call {
    match letter {
        b'c' => Call::Compress,
        b'l' => Call::WriteList,
        b'f' => Call::WriteFile,
        b'n' => Call::NumBits,
        b'm' => Call::MeasureList,
        _ => Call::BlockSize,
    }
}

// The calls on bytes. (A `match` on a letter: it is the input's, and each arm is one call.)
fn of_bytes(letter: u8) -> Call {
    match letter {
        b'h' => Call::Header,
        b'b' => Call::Body,
        b'd' => Call::Decompress,
        b'l' => Call::ReadList,
        _ => Call::ReadFile,
    }
}

// The arguments of a call, each a word of its line.
fn lanes(case: &[u8]) -> usize {
    amount(b'l', case) as usize
}

fn kind(case: &[u8]) -> u32 {
    narrow(amount(b'k', case))
}

fn first(case: &[u8]) -> u32 {
    narrow(amount(b'f', case))
}

fn width(case: &[u8]) -> u32 {
    narrow(amount(b'w', case))
}

fn count(case: &[u8]) -> usize {
    amount(b'c', case) as usize
}

impl Call {
    // By the first letter of its name, and of `write_` and `read_` by the letter behind; the size of a block has more behind `compress`.
    // (A `match` on a letter: it is the input's, and each arm is one call, or hands on the letter that tells it.)
    pub(crate) fn of(line: &[u8]) -> Option<Call> {
        match letter_at(line, 0) {
            b'c' if letter_at(line, 8) != b' ' => Some(Call::BlockSize),
            b'w' => Some(of_values(letter_at(line, 6))),
            b'r' => Some(of_bytes(letter_at(line, 5))),
            letter @ (b'c' | b'n' | b'm') => Some(of_values(letter)),
            letter @ (b'd' | b'h' | b'b') => Some(of_bytes(letter)),
            _ => None,
        }
    }

    // (Each arm asks for the words that its call takes, and for no other: a word that is not there is looked for to the line's end.)
    pub(crate) fn run(self, rt: &impl Print, case: &[u8]) -> io::Result<()> {
        match self {
            Call::BlockSize => on_values(rt, case, |_| {
                sisalshed_compressed_block_size(lanes(case), width(case))
            }),
            Call::NumBits => on_values(rt, case, |values| {
                sisalshed_num_bits(lanes(case), kind(case), first(case), values)
            }),
            Call::MeasureList => on_values(rt, case, |values| {
                sisalshed_measure_list(lanes(case), kind(case), first(case), values)
            }),
            Call::Compress => show_written(rt, case, |values, output| {
                sisalshed_compress(
                    lanes(case),
                    kind(case),
                    first(case),
                    values,
                    output,
                    width(case),
                )
            }),
            Call::WriteList => show_written(rt, case, |values, output| {
                sisalshed_write_list(lanes(case), kind(case), first(case), values, output)
            }),
            Call::WriteFile => show_written(rt, case, |values, output| {
                sisalshed_write_file(lanes(case), kind(case), first(case), values, output)
            }),
            Call::Decompress => show_read(rt, case, |bytes, output| {
                sisalshed_decompress(
                    lanes(case),
                    kind(case),
                    first(case),
                    bytes,
                    output,
                    width(case),
                )
            }),
            Call::ReadList => show_read(rt, case, |bytes, output| {
                sisalshed_read_list(
                    lanes(case),
                    kind(case),
                    first(case),
                    count(case),
                    bytes,
                    output,
                )
            }),
            Call::ReadFile => show_read(rt, case, |bytes, output| {
                sisalshed_read_file(bytes, output)
            }),
            Call::Header => on_bytes(case, |file| show_header(rt, file)),
            Call::Body => on_bytes(case, |file| show_body(rt, file)),
        }
    }
}
