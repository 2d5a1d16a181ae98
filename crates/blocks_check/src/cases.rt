// The kinds of cases.
use crate::calls::{BYTES, Case, VALUES};
use crate::inputs::{noise, one_entry};
use answers::Answer;
use std::io;
use tables::buffers::{BYTE_MARK, VALUE_MARK, first, same_front};
use tables::checksum;
use tables::line::{Answered, Hex};
use tables::words::{amount, given_values};

// How many values a case has, or packs.
fn count(line: &[u8]) -> usize {
    amount(b'v', line) as usize
}

// How many items at the end of an output are still marks.
fn kept<T: Copy + PartialEq>(output: &[T], mark: T) -> usize {
    output
        .iter()
        .rev()
        .take_while(|item| **item == mark)
        .count()
}

// All four calls, on so many values of a block with one entry that is not 0, and on so many bytes. Pack has room for as many bytes, and
// unpack for as many values.
pub(crate) fn all_calls(rt: &impl Print, line: &[u8]) -> io::Result<()> {
    let case = Case::of(line);
    let block = one_entry(line);
    let values = first(&block, count(line));
    let noise = noise(7);
    let bytes = first(&noise, amount(b'b', line) as usize);
    let (packed, packed_bytes) = case.pack(values, bytes.len());
    let (unpacked, unpacked_values) = case.unpack(bytes, values.len());
    print!(rt;
        " size={} pack={} bytes_kept={} bytes_sum={}",
        Answered(case.size()),
        Answered(packed),
        kept(&packed_bytes, BYTE_MARK),
        checksum(&packed_bytes)
    )?;
    print!(rt;
        " unpack={} values_kept={} values_sum={} least={}",
        Answered(unpacked),
        kept(&unpacked_values, VALUE_MARK),
        checksum(&unpacked_values),
        Answered(case.least(values))
    )
}

// The part of an output that is the payload.
fn payload<'a>(line: &[u8], output: &'a [u8]) -> &'a [u8] {
    // (A refusal counts as 0: its output on every input stays.)
    first(output, Case::of(line).size().unwrap_or(0))
}

// The payload in hex.
pub(crate) fn show_payload(rt: &impl Print, line: &[u8], output: &[u8]) -> io::Result<()> {
    print!(rt; " payload={}", Hex(payload(line, output)))
}

// A word for each byte of the payload that is not 0.
pub(crate) fn show_bytes(rt: &impl Print, line: &[u8], output: &[u8]) -> io::Result<()> {
    for (place, byte) in payload(line, output).iter().enumerate() {
        if *byte != 0 {
            print!(rt; " byte{place}={byte:02x}")?;
        }
    }
    Ok(())
}

// What the whole output holds, and how the values go on.
pub(crate) fn show_held(rt: &impl Print, line: &[u8], output: &[u8]) -> io::Result<()> {
    print!(rt;
        " bytes_kept={} bytes_sum={} start={} step={}",
        kept(output, BYTE_MARK),
        checksum(output),
        amount(b'g', line),
        amount(b's', line)
    )
}

// A block there and back, how many of its values came back, and what there is to show of the output.
pub(crate) fn there_and_back<F: FnOnce(&[u8]) -> io::Result<()>>(
    rt: &impl Print,
    line: &[u8],
    show: F,
) -> io::Result<()>
    requires { F.IsAlwaysCallable show }
{
    let case = Case::of(line);
    let given = given_values(line);
    let values = first(&given, count(line));
    let (packed, bytes) = case.pack(values, BYTES);
    let (unpacked, others) = case.unpack(payload(line, &bytes), VALUES);
    print!(rt;
        " least={} width={} pack={} unpack={} back={}",
        Answered(case.least(values)),
        case.width,
        Answered(packed),
        Answered(unpacked),
        same_front(values, &others)
    )?;
    show(&bytes)
}

// The first three values and the last, and what pack with no room answers and holds. (Where there are fewer than three values, that stands in
// their places: its output on every input stays.)
fn some_values(rt: &impl Print, values: &[u32], packed: Answer, bytes: &[u8]) -> io::Result<()> {
    let kept = kept(bytes, BYTE_MARK);
    let sum = checksum(bytes);
    if let [one, two, three, ..] = values {
        let last = values[values.len() - 1];
        print!(rt; " value0={one} value1={two} value2={three} last={last}")?;
        return print!(rt;
            " pack={} bytes_kept={kept} bytes_sum={sum}",
            Answered(packed)
        );
    }
    match packed {
        Ok(length) => print!(rt; " value0=0 value1={length}")?,
        Err(refusal) => print!(rt; " value0={} value1=0", refusal.number())?,
    }
    print!(rt; " value2={kept} last={sum} pack=0,0 bytes_kept=0 bytes_sum=0")
}

// No bytes at width 0 are a block, written over what was there, and that block packs to no bytes.
pub(crate) fn width_zero(rt: &impl Print, line: &[u8]) -> io::Result<()> {
    let case = Case::of(line);
    let (unpacked, output) = case.unpack(b"", VALUES);
    let values = first(&output, count(line));
    let (packed, bytes) = case.pack(values, 0);
    print!(rt;
        " unpack={} values_kept={} values_sum={}",
        Answered(unpacked),
        kept(&output, VALUE_MARK),
        checksum(&output)
    )?;
    some_values(rt, values, packed, &bytes)
}

// Any bytes that are unpacked, and how many of them come back from the block.
pub(crate) fn trip(rt: &impl Print, line: &[u8]) -> io::Result<()> {
    let case = Case::of(line);
    let noise = noise(case.width);
    let bytes = payload(line, &noise);
    let (unpacked, output) = case.unpack(bytes, VALUES);
    let values = first(&output, count(line));
    let (packed, others) = case.pack(values, BYTES);
    print!(rt;
        " size={} unpack={} values_kept={} values_sum={}",
        Answered(case.size()),
        Answered(unpacked),
        kept(&output, VALUE_MARK),
        checksum(&output)
    )?;
    print!(rt;
        " least={} pack={} back={}",
        Answered(case.least(values)),
        Answered(packed),
        same_front(bytes, &others)
    )
}
