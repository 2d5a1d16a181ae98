// Runs the list calls on the table of cases on standard input. A case is a line with its kind, a name, and words, as
// `list case8 lanes=4 mode=strict first=none count=3 values=0:1`; it is written, and behind it what the calls answer. checks/lists.py makes
// the table, and works out the same answers from document 01.
#![tactic(auto)]

use cases::{check_body, list_case, on_body, part_of_body, read_body};
use changes::change_case;
use std::io;
use tables::for_each_line;
use tables::words::{behind, letter_at};

mod calls;
mod cases;
mod changes;
mod inputs;
mod stops;

// `list`: a list is written and read back. `change`: its body is read with one byte changed. `body`: a body that may be wrong is read.
// `stop`: such a body is checked. `part`: a block of such a body is checked and read by itself. Any other line is only written.
// (A `match` on a letter: it is the input's, and each arm is one call.)
fn run_case(rt: &impl Print, line: &[u8]) -> io::Result<()> {
    let case = behind(b' ', line);
    match letter_at(line, 0) {
        b'l' => list_case(rt, case),
        b'c' => change_case(rt, case),
        b'b' => on_body(case, |body| read_body(rt, case, body)),
        b's' => on_body(case, |body| check_body(rt, case, body)),
        b'p' => on_body(case, |body| part_of_body(rt, case, body)),
        _ => Ok(()),
    }
}

fn run_line(rt: &impl Print, line: &[u8]) -> io::Result<()> {
    rt.write_all(line)?;
    run_case(rt, line)?;
    println!(rt)
}

fn main(rt: HostRuntime) -> io::Result<()> {
    for_each_line(&mut rt.stdin(), |line| run_line(&rt, line))
}
