// The header of a list file, and its text: document 01's five lines and the empty line.
ghost use Rattle.std.specs.Prelude.{◌≡◌, [], ◌++◌, ◌+◌, ◌≤◌, ◌<◌, length};
ghost use Rattle.text.specs.Text.{ended, line};
ghost use Rattle.files.specs.Header.{mode_word, first_text, header_text};
ghost use Rattle.files.specs.kernel.First.{first_field};
ghost use Rattle.files.specs.kernel.Lengths.{longest_number_line};

use arrayvec::ArrayString;
use itoa::Buffer;
use modes::{Initial, Mode};
use order::starting_initial;

// What the five lines say.
#[derive(Clone, Copy, Debug, PartialEq, Eq)]
pub struct Header {
    pub lanes: u32,
    pub mode: Mode,
    pub count: u32,
    pub bytes: u32,
}

// How a list is packed, as the lanes, mode and first lines say it, and how long these lines are.
#[derive(Clone, Copy, Debug, PartialEq, Eq)]
pub struct Settings {
    pub lanes: u32,
    pub mode: Mode,
    pub length: usize,
}

// The most bytes of a header's text.
pub(crate) const LONGEST: usize = 81;

// The line of a name and a value behind the text, with room for it.
fn push_line(text: &mut ArrayString<LONGEST>, name: &str, value: &str)
    requires { length text.old.bytes + (length name.now + length value.now) < LONGEST }
    ensures text_after { text.new.bytes ≡ text.old.bytes ++ (name.now ++ ended value.now []) }
    ensures size { length text.new.bytes ≡ length text.old.bytes + (length name.now + length value.now + 1) }
{
    text.push_str(name);
    text.push_str(value);
    text.push_str("\n");
}

fn mode_word(mode: Mode) -> &'static str
    ensures value { result.now ≡ mode_word mode }
    ensures short { length result.now ≤ 6 }
{
    match mode {
        Mode::Plain => "plain",
        Mode::Sorted(_) => "sorted",
        Mode::Strict(_) => "strict",
    }
}

// What `first` says.
fn first_field(mode: Mode) -> Initial
    ensures { result ≡ first_field mode }
{
    match mode {
        Mode::Plain => Initial::None,
        Mode::Sorted(first) => Initial::Number(first),
        Mode::Strict(start) => starting_initial(start),
    }
}

#[tactic(auto, using(crate::proofs::Lines::first_text_lem, text::proofs::Printed::printed))]
fn push_first_line(text: &mut ArrayString<LONGEST>, mode: Mode)
    requires { length text.old.bytes + longest_number_line ≤ LONGEST }
    ensures text_after { text.new.bytes ≡ text.old.bytes ++ line "first=" (first_text mode) [] }
    ensures size { length text.new.bytes ≤ length text.old.bytes + longest_number_line }
{
    match first_field(mode) {
        Initial::None => push_line(text, "first=", "none"),
        Initial::Number(first) => push_line(text, "first=", Buffer::new().format(first)),
    }
}

// The text of a header. (No `impl Display`: nothing promises that a `write!` answers Ok, and the clause `value` of `files::write` owes the file
// wherever there is room.)
#[tactic(auto, using(crate::proofs::Lines::header_put, text::proofs::Printed::printed))]
pub(crate) fn header_text(header: Header) -> ArrayString<LONGEST>
    ensures { result.bytes ≡ header_text header }
{
    let mut number = Buffer::new();
    let mut text = ArrayString::new();
    push_line(&mut text, "lanes=", number.format(header.lanes));
    push_line(&mut text, "mode=", mode_word(header.mode));
    push_first_line(&mut text, header.mode);
    push_line(&mut text, "count=", number.format(header.count));
    push_line(&mut text, "bytes=", number.format(header.bytes));
    text.push_str("\n");
    text
}
