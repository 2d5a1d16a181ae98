// What the two programs write for what they read: from bytes to bytes, for any input.
#![tactic(auto)]

ghost use Rattle.std.specs.Prelude.{◌≡◌, ◌≤◌, length, take, IfOk, OnOk};
ghost use Rattle.answers.specs.Answers.{answer, written};
ghost use Rattle.bodies.specs.List.{most};
ghost use Rattle.lists.specs.Calls.{measure_refusal};
ghost use Rattle.files.specs.Opening.{settings_said, header_in};
ghost use Rattle.files.specs.Calls.{list_in, file_for};
ghost use Rattle.programs.specs.Lines.{value_lines};
ghost use Rattle.programs.specs.Programs.{refused_line, output, limit_refusal, file_refusal, list_to_text, values_in, text_to_list, out_answer, out_left};
ghost use Rattle.programs.specs.kernel.Forms.{form_refusal};

use answers::{Answer, Refusal};
use files::heading::Settings;
use files::settings;
use lines::{put_values, read_values};
use lists::MOST;
use text::{put, put_number_line};

mod lines;

// The most bytes of an input.
pub const LIMIT: usize = 65536;

// The most bytes of a list's lines: 4,096 of ten digits and byte 10. (Buffers are arrays of the most there can be: the project has no heap.)
const LONGEST_TEXT: usize = 45056;

// The text at the front of `out`, or 4.
fn hand_out(text: &[u8], out: &mut [u8]) -> Answer
    ensures value { result ≡ out_answer text.now (length out.old) }
    ensures out_after { out.new ≡ out_left text.now out.old }
{
    put(text, out).ok_or(Refusal::NoRoom)
}

// The line `refused=` and the number.
fn refuse(refusal: Refusal, out: &mut [u8]) -> Answer
    ensures value { result ≡ out_answer (refused_line refusal) (length out.old) }
    ensures out_after { out.new ≡ out_left (refused_line refusal) out.old }
{
    put_number_line(b"refused=", refusal.number(), out).ok_or(Refusal::NoRoom)
}

// Each value of a list in decimal on its own line.
fn hand_out_values(values: &[u32], out: &mut [u8]) -> Answer
    requires { length values.now ≤ most }
    ensures value { result ≡ out_answer (value_lines values.now) (length out.old) }
    ensures out_after { out.new ≡ out_left (value_lines values.now) out.old }
{
    let mut text = [0; LONGEST_TEXT];
    let length = put_values(values, &mut text);
    hand_out(&text[..length], out)
}

// The file of a list, or the line `refused=` and the number; 4 is the call's own.
#[tactic(auto, using(lists::proofs::Accepts::writing_parts, crate::proofs::Outcomes::measure_not_four))]
fn hand_out_file(said: Settings, values: &[u32], out: &mut [u8]) -> Answer
    ensures value { result ≡ out_answer (output (measure_refusal said.lanes said.mode values.now) (file_for said.lanes said.mode values.now)) (length out.old) }
    ensures out_after { out.new ≡ out_left (output (measure_refusal said.lanes said.mode values.now) (file_for said.lanes said.mode values.now)) out.old }
{
    match files::write(said.lanes as usize, said.mode, values, out) {
        Ok(length) => Ok(length),
        // (A guard: tried as the pattern `Err(Refusal::NoRoom)`, behind which the last arm is not known to be another, and the proof did not close.)
        Err(refusal) if refusal == Refusal::NoRoom => Err(refusal),
        Err(refusal) => refuse(refusal, out),
    }
}

// 12, where an input is too long.
fn check_limit(input: &[u8]) -> Result<(), Refusal>
    ensures { result ≡ limit_refusal input.now }
{
    if LIMIT < input.len() {
        return Err(Refusal::BadHeader);
    }
    Ok(())
}

// The list of a file, at the front of `values`. Answers how many values it has.
fn list_of_file(file: &[u8], values: &mut [u32; MOST]) -> Answer
    ensures value { result ≡ answer (file_refusal file.now) (header_in file.now).count }
    ensures values_after { values.new ≡ written (file_refusal file.now) (list_in file.now) values.old }
{
    check_limit(file)?;
    files::read(file, values)
}

// The list of a file, each value in decimal on its own line, or the line `refused=` and the number.
#[tactic(auto, unfolding(crate::specs::Programs::list_to_text))]
pub fn list_to_text(file: &[u8], out: &mut [u8]) -> Answer
    ensures value { result ≡ out_answer (list_to_text file.now) (length out.old) }
    ensures out_after { out.new ≡ out_left (list_to_text file.now) out.old }
    ensures length_in_bounds { IfOk result (λ size. (size ≤ length out.new) × (size ≡ length (take size out.new))) }
{
    let mut values = [0; MOST];
    match list_of_file(file, &mut values) {
        Ok(count) => hand_out_values(&values[..count], out),
        Err(refusal) => refuse(refusal, out),
    }
}

// The values of a text, at the front of `values`. Answers how its list is packed, and how many they are; or 12 where the form is broken, or 7.
#[tactic(auto, unfolding(crate::specs::Programs::is_text))]
fn list_of_text(text: &[u8], values: &mut [u32; MOST]) -> Result<(Settings, usize), Refusal>
    ensures value { result ≡ answer (form_refusal text.now) (record { 0 = settings_said text.now; 1 = length (values_in text.now) }) }
    ensures values_after { OnOk result (take (length (values_in text.now)) values.new ≡ values_in text.now) }
{
    check_limit(text)?;
    let said = settings(text)?;
    let count = read_values(&text[said.length..], values).ok_or(Refusal::BadHeader)?;
    if MOST < count {
        return Err(Refusal::TooMany);
    }
    Ok((said, count))
}

// The file of a text: the lanes, mode and first lines, and then one value a line; or the line `refused=` and the number.
#[tactic(auto, unfolding(crate::specs::Programs::text_to_list))]
pub fn text_to_list(text: &[u8], out: &mut [u8]) -> Answer
    ensures value { result ≡ out_answer (text_to_list text.now) (length out.old) }
    ensures out_after { out.new ≡ out_left (text_to_list text.now) out.old }
    ensures length_in_bounds { IfOk result (λ size. (size ≤ length out.new) × (size ≡ length (take size out.new))) }
{
    let mut values = [0; MOST];
    match list_of_text(text, &mut values) {
        Ok((said, count)) => hand_out_file(said, &values[..count], out),
        Err(refusal) => refuse(refusal, out),
    }
}
