// Where a check stopped, as a word.
use bodies::Stop;
use modes::{Initial, Mode};
use std::{fmt, io};
use tables::line::number;

// A mode, as `plain`, `sorted:5`, `strict:5` or `strict:none`.
#[derive(Clone, Copy)]
struct Past(Mode);

impl fmt::Display for Past {
    fn fmt<W: fmt::Write>(&self, f: &mut fmt::Formatter<W>) -> fmt::Result {
        match self.0 {
            Mode::Plain => write!(f, "plain"),
            Mode::Sorted(first) => write!(f, "sorted:{first}"),
            Mode::Strict(Initial::None) => write!(f, "strict:none"),
            Mode::Strict(Initial::Number(first)) => write!(f, "strict:{first}"),
        }
    }
}

// The number of the refusal, the blocks, the place, the values left, and the mode.
pub(crate) fn show_stop(rt: &impl Print, stop: Stop) -> io::Result<()> {
    print!(rt;
        " stop={},{},{},{},{}",
        number(&stop.outcome),
        stop.blocks,
        stop.place,
        stop.left,
        Past(stop.mode)
    )
}
