// Write and read with so much room, which is full of marks: what they answer, and the checksum of the room afterwards.
use crate::inputs::{count, lanes};
use answers::Answer;
use modes::Mode;
use std::io;
use tables::buffers::{BYTE_MARK, first, marked_values, on_first};
use tables::line::{Excerpt, Outcome};
use tables::words::{mode, value};

// More bytes than the largest body has.
pub(crate) const BYTES: usize = 16520;

// Write with room to spare: the body, with marks behind it, and its length. (No heap, and the marks are read too, so no slice of the body alone.)
pub(crate) fn body_of(lanes: usize, mode: Mode, values: &[u32]) -> ([u8; BYTES], usize) {
    let mut bytes = [BYTE_MARK; BYTES];
    let written = lists::write(lanes, mode, values, &mut bytes);
    // (A refusal counts as 0: its output on every input stays.)
    (bytes, written.unwrap_or(0))
}

pub(crate) fn write(case: &[u8], values: &[u32], room: usize) -> Outcome {
    let mut bytes = [BYTE_MARK; BYTES];
    let (answer, sum) = on_first(&mut bytes, room, |output| {
        lists::write(lanes(case), mode(case), values, output)
    });
    Outcome { answer, sum }
}

// Read a body; or, of a case with the word `start`, a block.
fn call(case: &[u8], lanes: usize, bytes: &[u8], output: &mut [u32]) -> Answer {
    if value(b's', case).is_empty() {
        lists::read(lanes, mode(case), count(case), bytes, output)
    } else {
        lists::read_block(lanes, mode(case), count(case), bytes, output)
    }
}

// And the checksum of the values that were read, and the first four of them.
pub(crate) fn read(
    rt: &impl Print,
    case: &[u8],
    lanes: usize,
    bytes: &[u8],
    room: usize,
) -> io::Result<()> {
    let mut values = marked_values();
    let (answer, sum) = on_first(&mut values, room, |output| {
        call(case, lanes, bytes, output)
    });
    let read = Excerpt {
        values: first(&values, answer.unwrap_or(0)),
        shown: 4,
    };
    print!(rt; "{}:{read}", Outcome { answer, sum })
}
