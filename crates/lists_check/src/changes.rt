// Bodies of which one byte is changed: each is refused, or is the body of another list.
use crate::calls::body_of;
use crate::inputs::{count, lanes, list_of};
use modes::Mode;
use std::io;
use tables::buffers::{first, marked_values};
use tables::checksum;
use tables::line::Excerpt;
use tables::words::mode;

// The checksum of a buffer that holds nothing but marks.
const MARKS_SUM: u32 = 3985470720;

// The bits of a byte that a change turns: one, or all.
const CHANGES: [u8; 9] = [1, 2, 4, 8, 16, 32, 64, 128, 255];

// The list that was written, by which its changed bodies are read.
#[derive(Clone, Copy)]
struct Written {
    lanes: usize,
    mode: Mode,
    count: usize,
}

impl Written {
    // Whether writing the values gives the body.
    fn is_body_of(&self, values: &[u32], body: &[u8]) -> bool {
        let (bytes, length) = body_of(self.lanes, self.mode, values);
        first(&bytes, length) == body
    }

    // What comes of reading a body: 0 where it is accepted and the list that was read gives this body again, and else 12; the number of a
    // refusal that left the output as it was, and else 13.
    // (A number and no enum: it is the place in the tally, which is written by its places.)
    fn outcome(&self, body: &[u8]) -> u32 {
        let mut output = marked_values();
        match lists::read(self.lanes, self.mode, self.count, body, &mut output) {
            Ok(_) if self.is_body_of(first(&output, self.count), body) => 0,
            Ok(_) => 12,
            Err(refusal) if checksum(&output) == MARKS_SUM => refusal.number(),
            Err(_) => 13,
        }
    }

    // How many changed bodies have each outcome, of every change of every byte of a body. (A count stops at the largest number, which is not
    // reached.)
    fn outcomes(&self, body: &mut [u8]) -> [u32; 14] {
        let mut outcomes = [0u32; 14];
        // (By place: the byte there is changed, the whole body is read, and the byte is put back.)
        for place in 0..body.len() {
            for bits in CHANGES {
                body[place] ^= bits;
                let number = self.outcome(body) as usize % 14;
                outcomes[number] = outcomes[number].saturating_add(1);
                body[place] ^= bits;
            }
        }
        outcomes
    }
}

// The body of a list with one byte changed: how many have the outcome 0, 1 and so on.
pub(crate) fn change_case(rt: &impl Print, case: &[u8]) -> io::Result<()> {
    let list = Written {
        lanes: lanes(case),
        mode: mode(case),
        count: count(case),
    };
    let values = list_of(case, list.count);
    let (mut bytes, length) = body_of(list.lanes, list.mode, first(&values, list.count));
    let end = length.min(bytes.len());
    let all = Excerpt {
        values: &list.outcomes(&mut bytes[..end]),
        shown: 14,
    };
    print!(rt; " outcomes={all}")
}
