// Runs the list file calls on the table of files on standard input. A line is a name, a blank, and the bytes of a file in hex; the name is
// written, and behind it what the calls answer. checks/files.py makes the table, and works out the same answers from document 01.
#![tactic(auto)]

use calls::{show_header, show_read, show_written};
use std::io;
use tables::buffers::marked_bytes;
use tables::words::{before, behind};
use tables::{decode, for_each_line};

mod calls;

fn run_file(rt: &impl Print, hex: &[u8]) -> io::Result<()> {
    let mut bytes = marked_bytes();
    let size = decode(hex, &mut bytes);
    let file = &bytes[..size];
    show_header(rt, file)?;
    show_read(rt, file)?;
    show_written(rt, file)
}

// A line of the table: the name up to the first blank, and the file. (No plainer as one function of `tables`: the frame is two
// lines, and what stands between is the program's own.)
fn run_line(rt: &impl Print, line: &[u8]) -> io::Result<()> {
    rt.write_all(before(b' ', line))?;
    run_file(rt, behind(b' ', line))?;
    println!(rt)
}

fn main(rt: HostRuntime) -> io::Result<()> {
    for_each_line(&mut rt.stdin(), |line| run_line(&rt, line))
}
