// A call on the input of its case: all that it answers is written, with the checksum of the memory that it was lent to write.
use sisalshed::{CAnswer, sisalshed_body, sisalshed_header};
use std::io;
use tables::buffers::{VALUES, first, marked_bytes, marked_values, on_first};
use tables::words::{amount, given_values, value};
use tables::{checksum, decode};

// How much room the output has.
fn room(case: &[u8]) -> usize {
    amount(b'r', case) as usize
}

// The calls of blocks and lists that are lent nothing to write.
pub(crate) fn on_values<F: FnOnce(&[u32]) -> CAnswer>(
    rt: &impl Print,
    case: &[u8],
    call: F,
) -> io::Result<()>
    requires { F.IsAlwaysCallable call }
{
    let values = given_values(case);
    let answer = call(first(&values, amount(b'v', case) as usize));
    print!(rt; " answer={},{}", answer.number, answer.length)
}

// The calls that write bytes.
pub(crate) fn show_written<F: FnOnce(&[u32], &mut [u8]) -> CAnswer>(
    rt: &impl Print,
    case: &[u8],
    call: F,
) -> io::Result<()>
    requires { F.IsAlwaysCallable call }
{
    let values = given_values(case);
    let mut bytes = marked_bytes();
    let (answer, sum) = on_first(&mut bytes, room(case), |output| {
        call(first(&values, amount(b'v', case) as usize), output)
    });
    print!(rt; " answer={},{},{sum}", answer.number, answer.length)
}

// What is done with the bytes of a case.
pub(crate) fn on_bytes<F: FnOnce(&[u8]) -> io::Result<()>>(case: &[u8], run: F) -> io::Result<()>
    requires { F.IsAlwaysCallable run }
{
    let mut bytes = marked_bytes();
    let size = decode(value(b'd', case), &mut bytes);
    run(&bytes[..size])
}

// The calls that write values.
pub(crate) fn show_read<F: FnOnce(&[u8], &mut [u32]) -> CAnswer>(
    rt: &impl Print,
    case: &[u8],
    call: F,
) -> io::Result<()>
    requires { F.IsAlwaysCallable call }
{
    on_bytes(case, |bytes| {
        let mut values = marked_values();
        // (Tried by `on_first`, and the proof did not close: that the call may be made is not known in a closure within a closure.)
        let output = &mut values[..room(case).min(VALUES)];
        let answer = call(bytes, output);
        let sum = checksum(output);
        print!(rt; " answer={},{},{sum}", answer.number, answer.length)
    })
}

pub(crate) fn show_header(rt: &impl Print, file: &[u8]) -> io::Result<()> {
    let header = sisalshed_header(file);
    print!(rt;
        " header={},{},{},{},{},{}",
        header.number, header.lanes, header.kind, header.first, header.count, header.bytes
    )
}

pub(crate) fn show_body(rt: &impl Print, file: &[u8]) -> io::Result<()> {
    let body = sisalshed_body(file);
    print!(rt; " body={},{},{}", body.number, body.start, body.length)
}
