// The lanes, mode and first lines and then one value a line on standard input; on standard output a list file, or the line `refused=` and
// the number.
#![tactic(auto)]

ghost use Rattle.std.specs.Prelude.{◌≡◌, ℕ, List, ◌<◌, ◌≤◌, length, take};
ghost use Rattle.streams.specs.Inputs.{IsSeen};
ghost use Rattle.programs.specs.Programs.{limit, text_to_list};

use programs::text_to_list;
use std::io::Read;
use streams::{read_input, warn_of_arguments, write_output};

// Reads an input, and puts at the front of `output` all that goes out for it. Answers how many bytes that is. (list_to_text has the twin, and
// says why both stand.)
fn converted<R: Read>(reader: &mut R, input: &mut [u8], output: &mut [u8]) -> usize
    requires longer_is_seen { limit < length input.old }
    requires room { 16593 ≤ length output.old }
    ensures in_bounds { (result ≤ length output.new) × (result ≡ length (take result output.new)) }
    ensures all_of_it { (bytes : List ℕ) × IsSeen limit (R.remaining reader.old) bytes × (take result output.new ≡ text_to_list bytes) }
{
    let size = read_input(reader, input);
    text_to_list(&input[..size], output).unwrap()
}

fn main(rt: HostRuntime) {
    warn_of_arguments(&rt);
    // one byte more than an input may have (arrays: the project has no heap)
    let mut input = [0u8; 65537];
    let mut output = [0u8; 16593];
    let length = converted(&mut rt.stdin(), &mut input, &mut output);
    write_output(&rt, &output[..length]);
}
