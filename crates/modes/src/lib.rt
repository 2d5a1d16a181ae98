// The three modes: how a row of values becomes a row of entries, and back (the Rust's `Transformer` and `Sink`).
#![tactic(auto)]

ghost use Rattle.std.specs.Prelude.{◌≡◌};
ghost use Rattle.layout.specs.Layout.{at};
ghost use Rattle.lanes.specs.Rows.{IsRow, last_lane};
ghost use Rattle.lanes.specs.Sums.{before};
ghost use Rattle.modes.specs.Entries.{first_of, entry_of, values_from};

use lanes::scalar::{add, compute_delta, integrate_delta, set1, sub};

// What strict starts from: none or a number (the Rust's `Option<u32>`). An enum of our own, since document 01 binds it: "holds a second enum
// standing for the Rust's optional initial".
#[derive(Clone, Copy, Debug, PartialEq, Eq)]
pub enum Initial {
    None,
    Number(u32),
}

#[derive(Clone, Copy, Debug, PartialEq, Eq)]
pub enum Mode {
    Plain,
    // the first number
    Sorted(u32),
    Strict(Initial),
}

// The previous value of a block's first.
pub fn initial_value(mode: Mode) -> u32
    ensures { result ≡ first_of mode }
{
    match mode {
        Mode::Plain => 0,
        Mode::Strict(Initial::None) => u32::MAX,
        Mode::Sorted(first) | Mode::Strict(Initial::Number(first)) => first,
    }
}

// The entries of the row of values `current`, where `previous` is the row of values before it.
// (`usize` and not `Lanes`: it answers for any number, and the documents name it.)
pub fn transform(mode: Mode, current: [u32; 8], previous: [u32; 8], lanes: usize) -> [u32; 8]
    ensures { IsRow result (λ l. entry_of mode (before (last_lane lanes previous) (at current) l) (at current l)) }
{
    match mode {
        Mode::Plain => current,
        Mode::Sorted(_) => compute_delta(current, previous, lanes),
        Mode::Strict(_) => sub(compute_delta(current, previous, lanes), set1(1)),
    }
}

// The values of the row of entries `delta`, where `current` is the row of values before it. (`usize`, as `transform`.)
pub fn process(mode: Mode, current: [u32; 8], delta: [u32; 8], lanes: usize) -> [u32; 8]
    ensures { IsRow result (values_from mode (last_lane lanes current) (at delta)) }
{
    match mode {
        Mode::Plain => delta,
        Mode::Sorted(_) => integrate_delta(current, delta, lanes),
        Mode::Strict(_) => integrate_delta(current, add(delta, set1(1)), lanes),
    }
}
