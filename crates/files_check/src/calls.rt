// The four calls on one file: what each answers, and the checksum of what it handed back or left.
use files::heading::Header;
use modes::{Initial, Mode};
use std::{fmt, io};
use tables::buffers::{BYTE_MARK, VALUES, first, marked_values, on_first};
use tables::checksum;
use tables::line::Outcome;

// More bytes than any of the files has that are written.
const BYTES: usize = 20000;

// The numbers of a header. The mode is two of them: 0 plain, 1 sorted, 2 strict with none, 3 strict with a number; and the first number, or 0.
// (Numbers, since its output stays.)
#[derive(Clone, Copy)]
struct Numbers(Header);

impl fmt::Display for Numbers {
    fn fmt<W: fmt::Write>(&self, f: &mut fmt::Formatter<W>) -> fmt::Result {
        let Header {
            lanes,
            mode,
            count,
            bytes,
        } = self.0;
        let (kind, first) = match mode {
            Mode::Plain => (0, 0),
            Mode::Sorted(first) => (1, first),
            Mode::Strict(Initial::None) => (2, 0),
            Mode::Strict(Initial::Number(first)) => (3, first),
        };
        write!(f, "{lanes},{kind},{first},{count},{bytes}")
    }
}

// Header and open: the numbers of the header, and the body.
pub(crate) fn show_header(rt: &impl Print, file: &[u8]) -> io::Result<()> {
    match files::header(file) {
        Ok(header) => print!(rt; " header=0,{}", Numbers(header))?,
        Err(refusal) => print!(rt; " header={},0,0,0,0,0", refusal.number())?,
    }
    let body = files::open(file);
    print!(rt; " body={},{}", body.len(), checksum(body))
}

// Read: with so much room.
fn read(file: &[u8], room: usize) -> Outcome {
    let mut values = marked_values();
    let (answer, sum) = on_first(&mut values, room, |output| files::read(file, output));
    Outcome { answer, sum }
}

// With all the room there is, and with one value too little.
pub(crate) fn show_read(rt: &impl Print, file: &[u8]) -> io::Result<()> {
    let all = read(file, VALUES);
    print!(rt; " read={all}")?;
    match all.answer {
        Ok(0) | Err(_) => Ok(()),
        Ok(count) => print!(rt; " narrow={}", read(file, count - 1)),
    }
}

// Write: with so much room.
fn write(lanes: usize, mode: Mode, values: &[u32], room: usize) -> Outcome {
    let mut bytes = [BYTE_MARK; BYTES];
    let (answer, sum) = on_first(&mut bytes, room, |output| {
        files::write(lanes, mode, values, output)
    });
    Outcome { answer, sum }
}

// What was read, written again: with all the room there is, with just enough, and with one byte too little; with 2 lanes; with more values
// than a list has; and in strict mode from 4,294,967,295.
fn write_again(
    rt: &impl Print,
    lanes: usize,
    mode: Mode,
    values: &[u32],
    size: usize,
) -> io::Result<()> {
    let last = Mode::Strict(Initial::Number(u32::MAX));
    print!(rt;
        " again={} exact={} short={}",
        write(lanes, mode, values, BYTES),
        write(lanes, mode, values, size),
        write(lanes, mode, values, size.saturating_sub(1))
    )?;
    print!(rt;
        " two={} many={} last={}",
        write(2, mode, values, BYTES),
        write(lanes, Mode::Plain, &marked_values(), BYTES),
        write(lanes, last, values, BYTES)
    )
}

// Where the header is one.
pub(crate) fn show_written(rt: &impl Print, file: &[u8]) -> io::Result<()> {
    let Ok(header) = files::header(file) else {
        return Ok(());
    };
    let mut output = marked_values();
    // (A refusal counts as 0: its output on every input stays.)
    let count = files::read(file, &mut output).unwrap_or(0);
    let values = first(&output, count);
    write_again(rt, header.lanes as usize, header.mode, values, file.len())
}
