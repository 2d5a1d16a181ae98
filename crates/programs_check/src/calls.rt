// One program on one input: a word with what it answers, and the checksum of its output afterwards.
use answers::Answer;
use std::io;
use tables::buffers::{BYTES, marked_bytes, on_first};
use tables::line::Outcome;

// With so much room.
fn call<F: Fn(&[u8], &mut [u8]) -> Answer>(program: F, input: &[u8], room: usize) -> Outcome
    requires { F.IsAlwaysCallable program }
{
    let mut bytes = marked_bytes();
    let (answer, sum) = on_first(&mut bytes, room, |output| program(input, output));
    Outcome { answer, sum }
}

// With all the room there is, with just enough, and with one byte too little.
pub(crate) fn run_program<F: Fn(&[u8], &mut [u8]) -> Answer>(
    rt: &impl Print,
    program: F,
    input: &[u8],
) -> io::Result<()>
    requires { F.IsAlwaysCallable program }
{
    let full = call(&program, input, BYTES);
    // (A refusal counts as 0: its output on every input stays.)
    let length = full.answer.unwrap_or(0);
    print!(rt; " full={full} exact={}", call(&program, input, length))?;
    if 0 < length {
        print!(rt; " short={}", call(&program, input, length - 1))?;
    }
    Ok(())
}
