// Words, decimal numbers and lines as bytes: written at the front of an output, and found at the front of some bytes.
#![tactic(auto)]

ghost use Rattle.std.specs.Prelude.{◌≡◌, [], ◌++◌, ◌≤◌, length, IsTrue, IfSome};
ghost use Rattle.answers.specs.Answers.{over};
ghost use Rattle.text.specs.Text.{decimal, ended, numbered, fitted, fitted_length, begins, leading_number, number_line};

use itoa::Buffer;

// The word at the front of `out`, where there is room for it. Answers its length.
pub fn put(word: &[u8], out: &mut [u8]) -> Option<usize>
    ensures value { result ≡ fitted_length word.now out.old }
    ensures out_after { out.new ≡ over (fitted word.now out.old) out.old }
{
    let length = word.len();
    if out.len() < length {
        return None;
    }
    // (Tried as `out.get_mut(..length)?`, and the proof did not close.)
    out[..length].copy_from_slice(word);
    Some(length)
}

// x in decimal, in the same way.
#[tactic(auto, using(crate::proofs::Printed::printed))]
pub fn put_decimal(x: u32, out: &mut [u8]) -> Option<usize>
    ensures value { result ≡ fitted_length (decimal x) out.old }
    ensures out_after { out.new ≡ over (fitted (decimal x) out.old) out.old }
{
    put(Buffer::new().format(x).as_bytes(), out)
}

// The line of a name and a word behind it, in the same way.
#[tactic(auto, using(crate::proofs::Lines::line_put))]
pub fn put_line(name: &[u8], value: &[u8], out: &mut [u8]) -> Option<usize>
    ensures value { result ≡ fitted_length (name.now ++ ended value.now []) out.old }
    ensures out_after { out.new ≡ over (fitted (name.now ++ ended value.now []) out.old) out.old }
{
    let end = name.len() + value.len();
    if out.len() <= end {
        return None;
    }
    out[..name.len()].copy_from_slice(name);
    out[name.len()..end].copy_from_slice(value);
    out[end] = b'\n';
    Some(end + 1)
}

// The line of a name and x in decimal behind it, in the same way.
#[tactic(auto, using(crate::proofs::Printed::printed))]
pub fn put_number_line(name: &[u8], x: u32, out: &mut [u8]) -> Option<usize>
    ensures value { result ≡ fitted_length (numbered name.now x) out.old }
    ensures out_after { out.new ≡ over (fitted (numbered name.now x) out.old) out.old }
{
    put_line(name, Buffer::new().format(x).as_bytes(), out)
}

// Whether the bytes begin with the text.
#[tactic(auto, using(crate::proofs::Beginnings::starts_begins))]
pub fn begins(text: &[u8], bytes: &[u8]) -> bool
    ensures value { result ≡ begins text.now bytes.now }
    ensures within { IsTrue result → length text.now ≤ length bytes.now }
{
    bytes.starts_with(text)
}

// The number that the digits stand for that the bytes begin with, ten of them at most, modulo 4,294,967,296. One that is too great becomes
// another, whose text is another too.
#[tactic(auto, using(crate::proofs::Numbers::reading_steps))]
fn leading_number(bytes: &[u8]) -> u32
    ensures { result ≡ leading_number bytes.now }
{
    let mut value: u32 = 0;
    for &digit in bytes.iter().take(10) {
        if !digit.is_ascii_digit() {
            break;
        }
        value = value.wrapping_mul(10).wrapping_add(u32::from(digit - b'0'));
    }
    value
}

// The number of a line, and the line's length.
#[derive(Clone, Copy, Debug, PartialEq, Eq)]
pub struct Numeral {
    pub value: u32,
    pub length: usize,
}

// The line of the name and a number that the bytes begin with. (`within` is a clause: a type would have to borrow the bytes, no plainer.)
#[tactic(auto, using(crate::proofs::Found::finding))]
pub fn number_line(name: &[u8], bytes: &[u8]) -> Option<Numeral>
    ensures value { result ≡ number_line name.now bytes.now }
    ensures within { IfSome result (λ n. n.length ≤ length bytes.now) }
{
    let behind = bytes.strip_prefix(name)?;
    let value = leading_number(behind);
    let mut buffer = Buffer::new();
    let digits = buffer.format(value).as_bytes();
    let rest = behind.strip_prefix(digits)?.strip_prefix(b"\n")?;
    Some(Numeral {
        value,
        length: bytes.len() - rest.len(),
    })
}
