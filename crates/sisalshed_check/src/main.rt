// Runs the calls for C on the table of cases on standard input. A case is a line with the call's name without `sisalshed_`, a name of the
// case, and the arguments as words; behind a `:` is the input, `values=` how many with `given=` the first of them, or `data=` bytes in hex.
// What stands before the `:` is written, and behind it all that the call answers. checks/sisalshed.py makes the table, and works out the
// same answers from document 01.
#![tactic(auto)]

use calls::Call;
use std::io;
use tables::for_each_line;
use tables::words::{before, behind};

mod calls;
mod shown;

fn run_line(rt: &impl Print, line: &[u8]) -> io::Result<()> {
    rt.write_all(before(b':', line))?;
    if let Some(call) = Call::of(line) {
        call.run(rt, behind(b' ', line))?;
    }
    println!(rt)
}

fn main(rt: HostRuntime) -> io::Result<()> {
    for_each_line(&mut rt.stdin(), |line| run_line(&rt, line))
}
