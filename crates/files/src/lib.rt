// The list file calls of document 01, and what they find a header by. Each takes any input; none limits the size of a file.
// (`as` between `u32` and `usize`: there is no `From` between them. `write` takes lanes as any number: README and docs/CALLS.md say so.)
#![tactic(auto)]

ghost use Rattle.std.specs.Prelude.{◌≡◌, ◌≤◌, length, IfOk};
ghost use Rattle.files.specs.kernel.Finding.{settings_in, header_found};
ghost use Rattle.files.specs.Opening.{file_found, header_answer, open_answer};
ghost use Rattle.files.specs.Calls.{read_file_answer, read_file_output, write_file_answer, write_file_output};

use answers::{Answer, Refusal};
use finding::{header_lines, settings_lines};
use heading::{Header, Settings, header_text};
use lists::measure;
use modes::Mode;

mod finding;
pub mod heading;

// What the lanes, mode and first lines say that a text or a file begins with; or 12.
pub fn settings(text: &[u8]) -> Result<Settings, Refusal>
    ensures value { result ≡ settings_in text.now }
    ensures within { IfOk result (λ s. s.length ≤ length text.now) }
{
    settings_lines(text).ok_or(Refusal::BadHeader)
}

// A header that was found, and where the body starts behind it.
#[derive(Clone, Copy, Debug, PartialEq, Eq)]
pub struct Found {
    pub header: Header,
    pub start: usize,
}

// The header that a file begins with, whatever its `bytes` says; or 12.
pub fn find(file: &[u8]) -> Result<Found, Refusal>
    ensures value { result ≡ header_found file.now }
    ensures within { IfOk result (λ f. f.start ≤ length file.now) }
{
    header_lines(file).ok_or(Refusal::BadHeader)
}

// The header of a file, with as many bytes behind it as it says; or 12.
#[tactic(auto, unfolding(crate::specs::Opening::is_file))]
pub fn find_file(file: &[u8]) -> Result<Found, Refusal>
    ensures value { result ≡ file_found file.now }
    ensures within { IfOk result (λ f. f.start ≤ length file.now) }
{
    let found = find(file)?;
    if found.header.bytes as usize != file.len() - found.start {
        return Err(Refusal::BadHeader);
    }
    Ok(found)
}

// The header of a file, or 12.
pub fn header(file: &[u8]) -> Result<Header, Refusal>
    ensures { result ≡ header_answer file.now }
{
    let found = find_file(file)?;
    Ok(found.header)
}

// The body of a file, or the empty part. (No `Result`: document 01, "hands back the empty part", and a public call that could not fail.)
pub fn open(file: &[u8]) -> &[u8]
    ensures { result.now ≡ open_answer file.now }
{
    match find_file(file) {
        Ok(found) => &file[found.start..],
        Err(_) => &file[..0],
    }
}

// Read a file: the list that it holds, at the front of `values`. Answers its count.
pub fn read(file: &[u8], values: &mut [u32]) -> Answer
    ensures value { result ≡ read_file_answer file.now (length values.old) }
    ensures values_after { values.new ≡ read_file_output file.now values.old }
{
    let Found { header, start } = find_file(file)?;
    let lanes = header.lanes as usize;
    let count = header.count as usize;
    lists::read(lanes, header.mode, count, &file[start..], values)
}

// Write a file: the header and the body of a list, at the front of `file`. Answers the file's length.
pub fn write(lanes: usize, mode: Mode, values: &[u32], file: &mut [u8]) -> Answer
    ensures value { result ≡ write_file_answer lanes mode values.now (length file.old) }
    ensures file_after { file.new ≡ write_file_output lanes mode values.now file.old }
{
    let bytes = measure(lanes, mode, values)?;
    let text = header_text(Header {
        lanes: lanes as u32,
        mode,
        count: values.len() as u32,
        bytes: bytes as u32,
    });
    let length = text.len();
    if file.len() < length + bytes {
        return Err(Refusal::NoRoom);
    }
    file[..length].copy_from_slice(text.as_bytes());
    lists::write(lanes, mode, values, &mut file[length..]).unwrap();
    Ok(length + bytes)
}
