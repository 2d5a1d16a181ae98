// The calls with the lanes, the mode and the width of a case.
use answers::{Answer, Refusal};
use blocks::{compress, compressed_block_size, decompress, num_bits};
use modes::Mode;
use tables::buffers::{BYTE_MARK, VALUE_MARK, on_first};
use tables::words::{amount, mode, narrow};

// More bytes than the largest payload has, and more values than the largest block.
pub(crate) const BYTES: usize = 1040;

pub(crate) const VALUES: usize = 264;

#[derive(Clone, Copy)]
pub(crate) struct Case {
    lanes: usize,
    pub(crate) mode: Mode,
    pub(crate) width: u32,
}

impl Case {
    pub(crate) fn of(line: &[u8]) -> Case {
        Case {
            lanes: amount(b'l', line) as usize,
            mode: mode(line),
            width: narrow(amount(b'w', line)),
        }
    }

    pub(crate) fn size(self) -> Answer {
        compressed_block_size(self.lanes, self.width)
    }

    pub(crate) fn least(self, values: &[u32]) -> Result<u32, Refusal> {
        num_bits(self.lanes, self.mode, values)
    }

    // Pack into so much room, and the output, all of which was marks before.
    pub(crate) fn pack(self, values: &[u32], room: usize) -> (Answer, [u8; BYTES]) {
        let mut bytes = [BYTE_MARK; BYTES];
        let (packed, _) = on_first(&mut bytes, room, |output| {
            compress(self.lanes, self.mode, values, output, self.width)
        });
        (packed, bytes)
    }

    // Unpack into so much room, and the output, all of which was marks before.
    pub(crate) fn unpack(self, bytes: &[u8], room: usize) -> (Answer, [u32; VALUES]) {
        let mut values = [VALUE_MARK; VALUES];
        let (unpacked, _) = on_first(&mut values, room, |output| {
            decompress(self.lanes, self.mode, bytes, output, self.width)
        });
        (unpacked, values)
    }
}
