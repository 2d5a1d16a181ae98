// One record of the list: lanes, kind, width and least width in a byte each, the first number, the payload, and the block's values.
use crate::kinds::Kind;
use blocks::{compress, compressed_block_size, decompress, num_bits};
use lanes::Lanes;
use modes::Mode;
use std::io;
use std::io::Read;
use streams::read_full;
use tables::buffers::first;
use tables::checksum_from;

// Which of the Rust's three answers in a record are ours.
#[derive(Clone, Copy, Default)]
pub(crate) struct Seen {
    pub(crate) values: bool,
    pub(crate) payload: bool,
    pub(crate) least: bool,
}

// How the record that comes next has to start.
#[derive(Clone, Copy)]
pub(crate) struct Head {
    pub(crate) lanes: Lanes,
    pub(crate) kind: Kind,
    pub(crate) width: u32,
}

// The next `count` bytes of the list, no more than N, and zeros where it ends.
fn next_bytes<R: Read, const N: usize>(list: &mut R, count: usize) -> io::Result<[u8; N]> {
    let mut bytes = [0; N];
    read_full(list, &mut bytes[..count.min(N)])?;
    Ok(bytes)
}

// Bytes as numbers, the lowest byte of each first.
fn numbers(bytes: &[u8]) -> [u32; 256] {
    let mut all = [0; 256];
    let (words, _) = bytes.as_chunks::<4>();
    for (number, word) in all.iter_mut().zip(words) {
        *number = u32::from_le_bytes(*word);
    }
    all
}

impl Head {
    // Unpacking the record's payload gives its values.
    fn unpacks(&self, mode: Mode, payload: &[u8], values: &[u32]) -> bool {
        let mut ours = [0; 256];
        let answer = decompress(self.lanes.count(), mode, payload, &mut ours, self.width);
        // (A refusal counts as 0: what it writes on every input stays.)
        answer.unwrap_or(0) == payload.len() && ours.starts_with(values)
    }

    // Packing the record's values gives its payload.
    fn packs(&self, mode: Mode, payload: &[u8], values: &[u32]) -> bool {
        let mut ours = [0; 1024];
        let answer = compress(self.lanes.count(), mode, values, &mut ours, self.width);
        // (A refusal counts as 0: what it writes on every input stays.)
        answer.unwrap_or(0) == payload.len() && ours.starts_with(payload)
    }

    // What comes of a record, which has to start with these lanes, this kind and this width.
    fn judge(&self, head: [u8; 8], payload: &[u8], words: &[u8]) -> Seen {
        let [lanes, kind, width, least, a, b, c, d] = head;
        if usize::from(lanes) != self.lanes.count()
            || kind != self.kind as u8
            || u32::from(width) != self.width
        {
            return Seen::default();
        }
        let mode = self.kind.mode(u32::from_le_bytes([a, b, c, d]));
        let block = numbers(words);
        let values = first(&block, self.lanes.block_size());
        let ours = num_bits(self.lanes.count(), mode, values);
        Seen {
            values: self.unpacks(mode, payload, values),
            payload: self.packs(mode, payload, values),
            // (A refusal counts as 0: what it writes on every input stays.)
            least: ours.unwrap_or(0) == u32::from(least),
        }
    }

    // The next record, and the checksum of the list with it.
    pub(crate) fn replay<R: Read>(&self, list: &mut R, sum: u32) -> io::Result<(Seen, u32)> {
        // (A refusal counts as 0: what it writes on every input stays. Of lanes and a width to 32 there is none.)
        let size = compressed_block_size(self.lanes.count(), self.width).unwrap_or(0);
        let length = 4 * self.lanes.block_size();
        let head: [u8; 8] = next_bytes(list, 8)?;
        let room: [u8; 1024] = next_bytes(list, size)?;
        let block: [u8; 1024] = next_bytes(list, length)?;
        let payload = first(&room, size);
        let words = first(&block, length);
        let next = checksum_from(checksum_from(checksum_from(sum, &head), payload), words);
        Ok((self.judge(head, payload, words), next))
    }
}
