// Runs what the two programs do on the table of inputs on standard input. A line is a name, a blank, `r` for list_to_text or `w` for
// text_to_list, and the pieces of the input, each with a blank before it; the name is written, and behind it what comes of the input.
// checks/programs.py makes the table, and works out the same from document 01.
#![tactic(auto)]

use calls::run_program;
use pieces::put_pieces;
use programs::{list_to_text, text_to_list};
use std::io;
use tables::buffers::first;
use tables::for_each_line;
use tables::words::{before, behind, letter_at};

mod calls;
mod pieces;

// The letter of the program, and the pieces. (There is room for more bytes than an input may have.)
// (A `match` on a letter: it is the input's, and each arm is one call.)
fn run_case(rt: &impl Print, text: &[u8]) -> io::Result<()> {
    let mut bytes = [0; 65540];
    let size = put_pieces(text, &mut bytes);
    let input = first(&bytes, size);
    match letter_at(text, 0) {
        b'r' => run_program(rt, list_to_text, input),
        _ => run_program(rt, text_to_list, input),
    }
}

// A line of the table: the name up to the first blank, and the case. (No plainer as one function of `tables`: the frame is two
// lines, and what stands between is the program's own.)
fn run_line(rt: &impl Print, line: &[u8]) -> io::Result<()> {
    rt.write_all(before(b' ', line))?;
    run_case(rt, behind(b' ', line))?;
    println!(rt)
}

fn main(rt: HostRuntime) -> io::Result<()> {
    for_each_line(&mut rt.stdin(), |line| run_line(&rt, line))
}
