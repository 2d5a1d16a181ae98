// Runs the block calls on the table of cases on standard input. A case is a line with a label and words, and behind a `:` the kind of the
// case and words that are not shown, as `case1 lanes=1 mode=plain: bytes width=2 given=1,2,3,0 step=0`. What stands before the `:` is
// written, and behind it what the calls answer. checks/blocks.py makes the table, and works out the same answers from document 01.
#![tactic(auto)]

use cases::{all_calls, show_bytes, show_held, show_payload, there_and_back, trip, width_zero};
use std::io;
use tables::for_each_line;
use tables::words::{before, behind, letter_at};

mod calls;
mod cases;
mod inputs;

// The kinds: `calls`, `zero`, `trip`, and a block there and back with its `payload`, its `bytes` or what is `kept`.
// (A `match` on a letter: it is the input's, and each arm is one call.)
fn run_kind(rt: &impl Print, line: &[u8]) -> io::Result<()> {
    match letter_at(behind(b':', line), 1) {
        b'c' => all_calls(rt, line),
        b'z' => width_zero(rt, line),
        b't' => trip(rt, line),
        b'p' => there_and_back(rt, line, |output| show_payload(rt, line, output)),
        b'b' => there_and_back(rt, line, |output| show_bytes(rt, line, output)),
        _ => there_and_back(rt, line, |output| show_held(rt, line, output)),
    }
}

fn run_line(rt: &impl Print, line: &[u8]) -> io::Result<()> {
    rt.write_all(before(b':', line))?;
    run_kind(rt, line)?;
    println!(rt)
}

fn main(rt: HostRuntime) -> io::Result<()> {
    for_each_line(&mut rt.stdin(), |line| run_line(&rt, line))
}
