// The mode's order, step by step: what may come next, and the mode past it.
#![tactic(auto)]

ghost use Rattle.std.specs.Prelude.{◌≡◌};
ghost use Rattle.order.specs.Order.{starting_initial, starting, after, admits, ordered, next_entry, next_value, values_of, course};

use answers::Refusal;
use modes::{Initial, Mode, initial_value};

// Strict's first number where a list starts: 4,294,967,295 stands for none.
pub fn starting_initial(start: Initial) -> Initial
    ensures { result ≡ starting_initial start }
{
    match start {
        Initial::Number(4294967295) => Initial::None,
        _ => start,
    }
}

// The mode that a list starts with: strict with 4,294,967,295 puts no bound on the first value.
pub fn starting(mode: Mode) -> Mode
    ensures { result ≡ starting mode }
{
    match mode {
        Mode::Strict(start) => Mode::Strict(starting_initial(start)),
        _ => mode,
    }
}

// The mode past the value v.
pub fn after(mode: Mode, v: u32) -> Mode
    ensures { result ≡ after mode v }
{
    match mode {
        Mode::Plain => Mode::Plain,
        Mode::Sorted(_) => Mode::Sorted(v),
        Mode::Strict(_) => Mode::Strict(Initial::Number(v)),
    }
}

// Whether the value v may come next.
pub fn admits(mode: Mode, v: u32) -> bool
    ensures { result ≡ admits mode v }
{
    match mode {
        Mode::Plain | Mode::Strict(Initial::None) => true,
        Mode::Sorted(first) => first <= v,
        Mode::Strict(Initial::Number(first)) => first < v,
    }
}

// The entry of the value v where it comes next.
pub fn next_entry(mode: Mode, v: u32) -> u32
    ensures { result ≡ next_entry mode v }
{
    let difference = v.wrapping_sub(initial_value(mode));
    match mode {
        Mode::Plain => v,
        Mode::Sorted(_) => difference,
        Mode::Strict(_) => difference.wrapping_sub(1),
    }
}

// The value of the entry e where it comes next.
pub fn next_value(mode: Mode, e: u32) -> u32
    ensures { result ≡ next_value mode e }
{
    let previous = initial_value(mode);
    match mode {
        Mode::Plain => e,
        Mode::Sorted(_) => previous.wrapping_add(e),
        Mode::Strict(_) => previous.wrapping_add(e.wrapping_add(1)),
    }
}

// Whether the values are in the mode's order, where they come next; of a whole list the mode is `starting` of the list's.
pub fn in_order(mode: Mode, values: &[u32]) -> bool
    ensures { result ≡ ordered mode values.now }
{
    let mut running = mode;
    for &v in values {
        if !admits(running, v) {
            return false;
        }
        running = after(running, v);
    }
    true
}

// The mode past the values that the entries stand for, or 8 where these are not in order.
pub fn walk(mode: Mode, entries: &[u32]) -> Result<Mode, Refusal>
    ensures { result ≡ course mode (values_of mode entries.now) }
{
    let mut running = mode;
    for &e in entries {
        let v = next_value(running, e);
        if !admits(running, v) {
            return Err(Refusal::OutOfOrder);
        }
        running = after(running, v);
    }
    Ok(running)
}
