// One value a line, written and read.
ghost use Rattle.std.specs.Prelude.{◌≡◌, ◌*◌, ◌≤◌, length, take};
ghost use Rattle.answers.specs.Answers.{over};
ghost use Rattle.programs.specs.Lines.{value_lines};
ghost use Rattle.programs.specs.kernel.Lines.{lines_in, counted};

use text::{number_line, put_number_line};

// The values, one a line. Answers the length of the text. (No plainer as a fold: each line is put behind those before.)
pub(crate) fn put_values(values: &[u32], out: &mut [u8]) -> usize
    requires { length values.now * 11 ≤ length out.old }
    ensures value { result ≡ length (value_lines values.now) }
    ensures out_after { out.new ≡ over (value_lines values.now) out.old }
{
    let mut length = 0;
    for &v in values {
        length += put_number_line(b"", v, &mut out[length..]).unwrap();
    }
    length
}

// How many values there are, one a line, where their lines are all that there is. The values of the lines up to the first that is no value's
// are put at the front of `values`, as far as there is room.
pub(crate) fn read_values(bytes: &[u8], values: &mut [u32]) -> Option<usize>
    ensures value { result ≡ counted bytes.now }
    ensures values_after { values.new ≡ over (take (length values.old) (lines_in bytes.now)) values.old }
{
    let mut rest = bytes;
    let mut count = 0;
    while let Some(line) = number_line(b"", rest) {
        // (Tried as `values.get_mut(count)`, and the proof did not close: after it no element is known.)
        if count < values.len() {
            values[count] = line.value;
        }
        count += 1;
        rest = &rest[line.length..];
    }
    rest.is_empty().then_some(count)
}
