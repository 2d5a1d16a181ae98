// The tests of reading, block by block, and where they stop. Nothing is written.
ghost use Rattle.std.specs.Prelude.{◌≡◌, ◌≤◌, ◌↔◌, length, All, IsTrue};
ghost use Rattle.layout.specs.Layout.{at, block_size};
ghost use Rattle.answers.specs.Answers.{answer};
ghost use Rattle.order.specs.Order.{after_all};
ghost use Rattle.bodies.specs.Reading.{size_at, values_at, block_refusal, end_refusal};
ghost use Rattle.bodies.specs.Stops.{nothing, block_stop, body_stop, past};
ghost use Rattle.lists.specs.kernel.Steps.{entries_refusal};

use crate::framing::{block_count, block_length, framed, own_block};
use answers::Refusal;
use blocks::num_bits;
use bodies::Stop;
use lanes::{Lanes, Width};
use modes::Mode;
use order::walk;

// Whether all of them are 0.
fn zeros(entries: &[u32]) -> bool
    ensures { IsTrue result ↔ All (λ x. x ≡ 0) entries.now }
{
    entries.iter().all(|&entry| entry == 0)
}

// 10, 9: whether a block of entries, `count` of them the list's, is filled with 0 and stored at its least width.
fn check_entries(lanes: Lanes, count: usize, width: Width, entries: &[u32]) -> Result<(), Refusal>
    requires { (count ≤ block_size lanes) × (length entries.now ≡ block_size lanes) }
    ensures { result ≡ entries_refusal lanes count width (at entries.now) }
{
    if !zeros(&entries[count..]) {
        return Err(Refusal::BadFill);
    }
    let least = num_bits(lanes.count(), Mode::Plain, entries).unwrap();
    if width.bits() != least {
        return Err(Refusal::NotLeast);
    }
    Ok(())
}

// 5, 2, 5, 10, 9, 8: the length of the block that the bytes begin with, and the mode past its first `count` values, which are the list's.
fn past_block(
    lanes: Lanes,
    mode: Mode,
    count: usize,
    bytes: &[u8],
) -> Result<(usize, Mode), Refusal>
    requires { count ≤ block_size lanes }
    ensures { result ≡ answer (block_refusal lanes mode count bytes.now) (size_at lanes bytes.now, after_all mode (values_at lanes mode count bytes.now)) }
{
    let width = framed(lanes, bytes)?;
    let block = own_block(lanes, Mode::Plain, width, &bytes[1..]);
    check_entries(lanes, count, width, &block[..lanes.block_size()])?;
    let next = walk(mode, &block[..count])?;
    Ok((block_length(lanes, width), next))
}

// No block is taken, and so many values are left.
pub(crate) fn nothing(outcome: Result<(), Refusal>, left: usize, mode: Mode) -> Stop
    ensures { result ≡ nothing outcome left mode }
{
    Stop {
        outcome,
        blocks: 0,
        place: 0,
        left,
        mode,
    }
}

// The block that the bytes begin with, as many of its values the list's as are left, or all.
pub(crate) fn take_block(lanes: Lanes, mode: Mode, left: usize, bytes: &[u8]) -> Stop
    ensures { result ≡ block_stop lanes mode left bytes.now }
{
    let count = lanes.block_size().min(left);
    match past_block(lanes, mode, count, bytes) {
        Ok((place, next)) => Stop {
            outcome: Ok(()),
            blocks: 1,
            place,
            left: left - count,
            mode: next,
        },
        Err(refusal) => nothing(Err(refusal), left, mode),
    }
}

// 11: whether nothing stands behind the last block.
fn check_end(rest: &[u8]) -> Result<(), Refusal>
    ensures { result ≡ end_refusal rest.now }
{
    if rest.is_empty() {
        Ok(())
    } else {
        Err(Refusal::LeftOver)
    }
}

// The blocks one after another, and at the end 11.
pub(crate) fn take_body(lanes: Lanes, mode: Mode, count: usize, body: &[u8]) -> Stop
    ensures { result ≡ body_stop lanes mode count body.now }
{
    let mut stop = nothing(Ok(()), count, mode);
    for _ in 0..block_count(lanes, count) {
        let next = take_block(lanes, stop.mode, stop.left, &body[stop.place..]);
        if next.outcome.is_err() {
            stop.outcome = next.outcome;
            return stop;
        }
        stop = Stop {
            outcome: Ok(()),
            blocks: stop.blocks + 1,
            place: stop.place + next.place,
            left: next.left,
            mode: next.mode,
        };
    }
    stop.outcome = check_end(&body[stop.place..]);
    stop
}
