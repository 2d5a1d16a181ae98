// The kinds of mode that the list has.
use modes::{Initial, Mode};
use std::fmt;

// By their numbers in the list.
#[derive(Clone, Copy)]
pub(crate) enum Kind {
    Plain = 0,
    Sorted = 1,
    StrictNone = 2,
    StrictNumber = 3,
}

impl Kind {
    // (A mode from a kind and a number: these are the record's own.)
    pub(crate) fn mode(self, first: u32) -> Mode {
        match self {
            Kind::Plain => Mode::Plain,
            Kind::Sorted => Mode::Sorted(first),
            Kind::StrictNone => Mode::Strict(Initial::None),
            Kind::StrictNumber => Mode::Strict(Initial::Number(first)),
        }
    }
}

impl fmt::Display for Kind {
    fn fmt<W: fmt::Write>(&self, f: &mut fmt::Formatter<W>) -> fmt::Result {
        f.write_str(match self {
            Kind::Plain => " mode=plain",
            Kind::Sorted => " mode=sorted",
            Kind::StrictNone => " mode=strict first=none",
            Kind::StrictNumber => " mode=strict first=number",
        })
    }
}
