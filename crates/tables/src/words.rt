// The words of a line of a table. A word is a blank, a name, `=`, and a value: a number, two numbers with `:` between them, numbers with `,`
// between them, or letters. The first letter of its name tells a word from the others of its line.
ghost use Rattle.std.specs.Prelude.{◌≡◌, ◌+◌, ◌-◌, ◌*◌, ◌%◌, ◌<◌, ◌≤◌, ◌==◌, length};
ghost use Rattle.layout.specs.Layout.{at, table};
ghost use Rattle.std.specs.List.{position_or_len};
ghost use Rattle.tables.specs.Words.{before_of, behind_of, is_name, word_of, value_of, with_digit, decimal_of, amount_of, second_of, initial_in, mode_in, next_listed, listed};

use modes::{Initial, Mode};

// The letter at a place, and 0 where there is none. (No `Option`: each caller takes 0 as one more letter that tells nothing.)
pub fn letter_at(text: &[u8], place: usize) -> u8
    ensures { result ≡ at text.now place }
{
    text.get(place).copied().unwrap_or(0)
}

// Where a letter stands first, and the end of the text where it does not.
fn place_of(letter: u8, text: &[u8]) -> usize
    ensures value { result ≡ position_or_len (λ x. x == letter) text.now }
    ensures upper_bound { result ≤ length text.now }
{
    text.iter()
        .position(|other| *other == letter)
        .unwrap_or(text.len())
}

// (No `Option` of what stands before or behind a letter, nor of a word: each caller takes the empty part as what is not there.)
// What stands before the first place of a letter, and all where it has none.
#[tactic(auto, unfolding(crate::specs::Words::before_of))]
pub fn before(letter: u8, text: &[u8]) -> &[u8]
    ensures { result.now ≡ before_of letter text.now }
{
    &text[..place_of(letter, text)]
}

// What stands behind it, and nothing where it has none.
#[tactic(auto, unfolding(crate::specs::Words::behind_of))]
pub fn behind(letter: u8, text: &[u8]) -> &[u8]
    ensures result_value { result.now ≡ behind_of letter text.now }
    ensures result_in_bounds { length result.now ≤ length text.now - 1 }
{
    text.get(place_of(letter, text) + 1..).unwrap_or(&[])
}

// Whether a text begins with a blank and behind it a name that begins with a letter.
#[tactic(auto, unfolding(crate::specs::Words::is_name))]
fn is_name(letter: u8, text: &[u8]) -> bool
    ensures { result ≡ is_name letter text.now }
{
    letter_at(text, 0) == b' ' && letter_at(text, 1) == letter
}

// The line from the name on that begins with a letter. (No plainer by splitting it at blanks: what is handed on is the rest
// of the line, and not a piece.)
#[tactic(auto, unfolding(crate::specs::Words::word_of))]
fn word(letter: u8, line: &[u8]) -> &[u8]
    ensures { result.now ≡ word_of letter line.now }
{
    let mut rest = line;
    while let Some((_, behind_it)) = rest.split_first() {
        if is_name(letter, rest) {
            return behind_it;
        }
        rest = behind_it;
    }
    rest
}

// The value of the word whose name begins with a letter, and nothing where there is no such word.
#[tactic(auto, unfolding(crate::specs::Words::value_of))]
pub fn value(letter: u8, line: &[u8]) -> &[u8]
    ensures { result.now ≡ value_of letter line.now }
{
    before(b' ', behind(b'=', word(letter, line)))
}

// A number with one digit more, up to 18,446,744,073,709,551,615.
#[tactic(auto, unfolding(crate::specs::Words::with_digit))]
fn with_digit(number: u64, digit: u8) -> u64
    ensures { result ≡ with_digit number digit }
{
    (number % 1844674407370955162 * 10).wrapping_add(u64::from(digit % 48))
}

// The number that a text is the digits of, and the largest where there are none. (No `Option`: each caller takes that as all that there is.)
#[tactic(auto, unfolding(crate::specs::Words::decimal_of))]
pub fn decimal(text: &[u8]) -> u64
    ensures { result ≡ decimal_of text.now }
{
    if text.is_empty() {
        return u64::MAX;
    }
    text.iter()
        .fold(0, |number, digit| with_digit(number, *digit))
}

// The number of a word, or the first of its two numbers. The largest number stands for a word that is not there. (No `Option`: each caller
// takes that as all that there is.)
#[tactic(auto, unfolding(crate::specs::Words::amount_of))]
pub fn amount(letter: u8, line: &[u8]) -> u64
    ensures { result ≡ amount_of letter line.now }
{
    decimal(before(b':', value(letter, line)))
}

// The second of the two numbers of a word, and the largest where there is none. (No `Option`, as of `amount`.)
#[tactic(auto, unfolding(crate::specs::Words::second_of))]
pub fn second(letter: u8, line: &[u8]) -> u64
    ensures { result ≡ second_of letter line.now }
{
    decimal(behind(b':', value(letter, line)))
}

// A number as a value. (There is no conversion that loses, so `as` is it; nor is there a
// `From` between `u32` and `usize`.)
pub fn narrow(number: u64) -> u32
    ensures { result ≡ number % 4294967296 }
{
    (number % 4294967296) as u32
}

// `none` or a number.
#[tactic(auto, unfolding(crate::specs::Words::initial_in))]
fn initial(first: &[u8]) -> Initial
    ensures { result ≡ initial_in first.now }
{
    if letter_at(first, 0) == b'n' {
        Initial::None
    } else {
        Initial::Number(narrow(decimal(first)))
    }
}

// The words `mode=plain`, `mode=sorted` or `mode=strict`, and `first=7` or `first=none`. (A switch on a letter of the input: each arm is one
// value.)
#[tactic(auto, unfolding(crate::specs::Words::mode_in, crate::specs::Words::amount_of))]
pub fn mode(line: &[u8]) -> Mode
    ensures { result ≡ mode_in line.now }
{
    let first = before(b':', value(b'f', line));
    match letter_at(value(b'm', line), 1) {
        b'l' => Mode::Plain,
        b'o' => Mode::Sorted(narrow(decimal(first))),
        _ => Mode::Strict(initial(first)),
    }
}

// The next of the values that a text lists: the number up to the next `,`, and where the text has ended, a step more than the value before.
#[tactic(auto, unfolding(crate::specs::Words::next_listed))]
fn next_listed(text: &[u8], step: u32, previous: u32) -> u32
    ensures { result ≡ next_listed text.now step previous }
{
    if text.is_empty() {
        previous.wrapping_add(step)
    } else {
        narrow(decimal(before(b',', text)))
    }
}

// Fills `values` with the numbers that a text lists, `,` between them, and then with numbers that go on by a step and wrap.
pub fn put_values(text: &[u8], step: u32, values: &mut [u32])
    ensures { values.new ≡ table (listed text.now step) (length values.old) }
{
    let mut rest = text;
    let mut previous = 0;
    for value in values.iter_mut() {
        previous = next_listed(rest, step, previous);
        *value = previous;
        rest = behind(b',', rest);
    }
}

// The values of the words `given` and `step`: those that are given, and then values that go on by the step.
pub fn given_values(line: &[u8]) -> [u32; 4104]
    ensures value { result ≡ table (listed (value_of 103 line.now) (amount_of 115 line.now % 4294967296)) 4104 }
    ensures len { 4104 ≡ length result }
{
    let mut values = [0; 4104];
    put_values(value(b'g', line), narrow(amount(b's', line)), &mut values);
    values
}
