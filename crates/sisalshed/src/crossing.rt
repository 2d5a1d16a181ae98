// What crosses to C and back: an enum cannot, so the mode crosses as two numbers and the refusal as its number.
ghost use Rattle.std.specs.Prelude.{◌≡◌};
ghost use Rattle.sisalshed.specs.Crossing.{mode_of, kind_of, first_given, crossed, bad_kind};
ghost use Rattle.sisalshed.specs.Calls.{header_from};

use crate::{CAnswer, CHeader};
use answers::{Answer, Refusal};
use files::heading::Header;
use modes::{Initial, Mode};

// The mode of a kind, strict with a number for 3. There is no other kind. (Two numbers: the C interface.)
pub(crate) fn mode_of(kind: u32, first: u32) -> Option<Mode>
    ensures { result ≡ mode_of kind first }
{
    match kind {
        0 => Some(Mode::Plain),
        1 => Some(Mode::Sorted(first)),
        2 => Some(Mode::Strict(Initial::None)),
        3 => Some(Mode::Strict(Initial::Number(first))),
        _ => None,
    }
}

// The kind of a mode.
pub(crate) fn kind_of(mode: Mode) -> u32
    ensures { result ≡ kind_of mode }
{
    match mode {
        Mode::Plain => 0,
        Mode::Sorted(_) => 1,
        Mode::Strict(Initial::None) => 2,
        Mode::Strict(Initial::Number(_)) => 3,
    }
}

// The number that a mode carries, and 0 where it carries none.
pub(crate) fn first_given(mode: Mode) -> u32
    ensures { result ≡ first_given mode }
{
    match mode {
        Mode::Plain | Mode::Strict(Initial::None) => 0,
        Mode::Sorted(first) | Mode::Strict(Initial::Number(first)) => first,
    }
}

impl From<Answer> for CAnswer {
    ghost from_gives = { λ answer c. c ≡ crossed answer };

    fn from(answer: Answer) -> CAnswer {
        match answer {
            Ok(length) => CAnswer { number: 0, length },
            Err(refusal) => CAnswer {
                number: refusal.number(),
                length: 0,
            },
        }
    }
}

impl From<Result<Header, Refusal>> for CHeader {
    ghost from_gives = { λ answer c. c ≡ header_from answer };

    fn from(answer: Result<Header, Refusal>) -> CHeader {
        match answer {
            Ok(header) => CHeader {
                number: 0,
                lanes: header.lanes,
                kind: kind_of(header.mode),
                first: first_given(header.mode),
                count: header.count,
                bytes: header.bytes,
            },
            Err(refusal) => CHeader {
                number: refusal.number(),
                ..CHeader::default()
            },
        }
    }
}

pub(crate) fn bad_kind() -> CAnswer
    ensures { result ≡ bad_kind }
{
    CAnswer::from(Err(Refusal::BadHeader))
}
