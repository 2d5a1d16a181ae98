// Standard input and standard output, whole; and arguments, which nobody reads.
#![tactic(auto)]

ghost use Rattle.std.specs.Prelude.{◌≡◌, ℕ, ◌<◌, ◌≤◌, IfOk, length, take};
ghost use Rattle.std.specs.Io.{ReadsAtMost};
ghost use Rattle.std.specs.Io.KnownBytes.{Consumes, IsAtEnd};
ghost use Rattle.streams.specs.Inputs.{IsWhole, IsSeen};

use std::env::{Env, FillError};
use std::io;
use std::io::Read;

// Reads until `bytes` is full or the input ends, and answers how many bytes of the input stand at the front of `bytes`.
pub fn read_full<R: Read>(reader: &mut R, bytes: &mut [u8]) -> io::Result<usize>
    ensures in_bounds { ReadsAtMost result bytes.new }
    ensures front { IfOk result (λ n. Consumes (R.remaining reader.old) (R.remaining reader.new) (take n bytes.new)) }
    ensures end { IfOk result (λ n. n < length bytes.new → IsAtEnd (R.remaining reader.new)) }
{
    // (By hand: no method of `Read` without heap says how much of a short input there was.)
    let mut done = 0;
    while done < bytes.len() {
        match reader.read(&mut bytes[done..])? {
            0 => break,
            more => done += more,
        }
    }
    Ok(done)
}

// Reads an input to its end, at the front of `bytes`, and answers how much there is: all of `bytes` where there is more, and where a read
// fails. Who lends one byte more than an input may have sees both as an input that is too long, and never as a shorter one.
// (No `Result`: public, and it could not fail; `read_full` stands beside it.)
pub fn read_input<R: Read>(reader: &mut R, bytes: &mut [u8]) -> usize
    ensures in_bounds { (result ≤ length bytes.new) × (result ≡ length (take result bytes.new)) }
    ensures whole { result < length bytes.new → IsWhole (R.remaining reader.old) (take result bytes.new) }
    ensures seen { (limit : ℕ) → limit < length bytes.new → IsSeen limit (R.remaining reader.old) (take result bytes.new) }
{
    read_full(reader, bytes).unwrap_or(bytes.len())
}

// Writes all of the bytes to standard output, however little a write takes. Where a write fails, says so on standard error.
pub fn write_output(rt: &(impl Print + Eprint), bytes: &[u8]) {
    if rt.write_all(bytes).is_err() {
        let _ = rt.eprintln("the output could not be written whole");
    }
}

// Where the program was given an argument, says on standard error that it reads none. (Of the runtime itself, since a bound `Env` would bring
// what the kit states of the environment and of folders too.)
pub fn warn_of_arguments(rt: &HostRuntime) {
    let mut name = [0u8; 1];
    match rt.arg(1, &mut name) {
        Err(FillError::NotPresent) => {}
        _ => {
            let _ = rt.eprintln("arguments are not read: the input is standard input, as after <");
        }
    }
}
