// Refusals by their names and numbers, as document 01 has them, and what a call answers. Every call of the project stands on this.
#![tactic(auto)]

ghost use Rattle.std.specs.Prelude.{◌≡◌};
ghost use Rattle.answers.specs.Refusals.{number_of};

#[derive(Clone, Copy, Debug, PartialEq, Eq)]
pub enum Refusal {
    // BAD_LANES: lanes not 1, 4, 8
    BadLanes = 1,
    // BAD_WIDTH: width over 32
    BadWidth = 2,
    // BAD_BLOCK: values given are not exactly B
    BadBlock = 3,
    // NO_ROOM: output shorter than needed
    NoRoom = 4,
    // CUT_SHORT: bytes end before a width or payload does
    CutShort = 5,
    // TOO_WIDE: block does not fit n
    TooWide = 6,
    // TOO_MANY: count over 4,096
    TooMany = 7,
    // OUT_OF_ORDER: the mode's order is broken
    OutOfOrder = 8,
    // NOT_LEAST: stored width is not the least
    NotLeast = 9,
    // BAD_FILL: a filling entry is not 0
    BadFill = 10,
    // LEFT_OVER: bytes after the last block
    LeftOver = 11,
    // BAD_HEADER: header is not as document 01 has it, or `bytes` is not the body's length
    BadHeader = 12,
}

impl Refusal {
    // The number that document 01 gives it.
    pub fn number(self) -> u32
        ensures { result ≡ number_of self }
    {
        self as u32
    }
}

// The refusal, or a length: of a payload, a body or a file in bytes, of a list that is read its count of values.
pub type Answer = Result<usize, Refusal>;
