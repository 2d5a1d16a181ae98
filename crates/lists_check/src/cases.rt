// A list that is written and read back, and a body that may be wrong, whole or a block of it.
use crate::calls::{BYTES, body_of, read, write};
use crate::inputs::{count, lanes, list_of, put};
use crate::stops::show_stop;
use modes::Mode;
use std::io;
use tables::buffers::{VALUES, first};
use tables::checksum;
use tables::line::{Answered, Excerpt, Hex};
use tables::words::{amount, mode, second};

// A list, its body, and both once more: written with room to spare, with room for its body, and with room for one byte less; and read back
// with room to spare, with room for the count, and with room for one value less.
pub(crate) fn list_case(rt: &impl Print, case: &[u8]) -> io::Result<()> {
    let count = count(case);
    let all = list_of(case, count);
    let values = first(&all, count);
    let (bytes, length) = body_of(lanes(case), mode(case), values);
    let body = first(&bytes, length);
    print!(rt; " list={}", Excerpt { values, shown: 4 })?;
    print!(rt;
        " write={};{};{} body={} read=",
        write(case, values, BYTES),
        write(case, values, length),
        write(case, values, length.saturating_sub(1)),
        Hex(first(body, 12))
    )?;
    read(rt, case, lanes(case), body, VALUES)?;
    print!(rt; ";")?;
    read(rt, case, lanes(case), body, count)?;
    print!(rt; ";")?;
    read(rt, case, lanes(case), body, count.saturating_sub(1))
}

// packed=20:32: a body packed of 20 entries and then zeros, 32 in all, which are the values of a plain list; and marks behind it.
fn packed(case: &[u8]) -> [u8; BYTES] {
    let all = list_of(case, amount(b'p', case) as usize);
    let entries = first(&all, second(b'p', case) as usize);
    let (bytes, _) = body_of(lanes(case), Mode::Plain, entries);
    bytes
}

// A packed body with bytes changed, and marks behind it: byte=3:9, or then=3:9, at place 3 is the byte 9.
fn changed(case: &[u8]) -> [u8; BYTES] {
    let mut bytes = packed(case);
    for letter in *b"bt" {
        put(
            &mut bytes,
            amount(letter, case),
            (second(letter, case) % 256) as u8,
        );
    }
    bytes
}

// as=4: the lanes with which a body is read.
fn lanes_read(case: &[u8]) -> usize {
    amount(b'a', case) as usize
}

// The checksum of some bytes, and the first 12 of them.
fn show_bytes(rt: &impl Print, bytes: &[u8]) -> io::Result<()> {
    print!(rt; " body={}:{}", checksum(bytes), Hex(first(bytes, 12)))
}

// room=31: it is read into so much room.
fn read_bytes(rt: &impl Print, case: &[u8], bytes: &[u8]) -> io::Result<()> {
    print!(rt; " read=")?;
    read(
        rt,
        case,
        lanes_read(case),
        bytes,
        amount(b'r', case) as usize,
    )
}

pub(crate) fn read_body(rt: &impl Print, case: &[u8], body: &[u8]) -> io::Result<()> {
    show_bytes(rt, body)?;
    read_bytes(rt, case, body)
}

pub(crate) fn check_body(rt: &impl Print, case: &[u8], body: &[u8]) -> io::Result<()> {
    show_bytes(rt, body)?;
    show_stop(
        rt,
        lists::check(lanes_read(case), mode(case), count(case), body),
    )
}

// start=7: the block that starts at that place is framed, checked and read by itself.
pub(crate) fn part_of_body(rt: &impl Print, case: &[u8], body: &[u8]) -> io::Result<()> {
    let start = (amount(b's', case) as usize).min(body.len());
    let bytes = &body[start..];
    show_bytes(rt, bytes)?;
    print!(rt;
        " frame={}",
        Answered(lists::frame(lanes_read(case), bytes))
    )?;
    show_stop(
        rt,
        lists::check_block(lanes_read(case), mode(case), count(case), bytes),
    )?;
    read_bytes(rt, case, bytes)
}

// end=12: what is done with the first 12 bytes of such a body.
pub(crate) fn on_body<F: FnOnce(&[u8]) -> io::Result<()>>(case: &[u8], run: F) -> io::Result<()>
    requires { F.IsAlwaysCallable run }
{
    let bytes = changed(case);
    run(first(&bytes, amount(b'e', case) as usize))
}
