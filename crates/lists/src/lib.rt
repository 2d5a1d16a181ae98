// The list calls of document 01, one that measures, and those on a part of a body: how far it can be read, and a block by itself. Each takes
// any input, tests all of it before it writes anything, and writes nothing where it refuses.
#![tactic(auto)]

ghost use Rattle.std.specs.Prelude.{◌≡◌, true, length, IfOk};
ghost use Rattle.layout.specs.Layout.{is_lanes};
ghost use Rattle.lists.specs.Calls.{measure_refusal, measure_answer, write_answer, write_output, read_refusal, read_answer, read_output};
ghost use Rattle.lists.specs.Demand.{DemandReads, DemandWrites};
ghost use Rattle.lists.specs.Parts.{frame_answer, check_block_stop, read_block_refusal, read_block_answer, read_block_output, check_stop};
ghost use Rattle.answers.specs.Answers.{answer};
ghost use Rattle.lists.specs.Stops.{WhereItStops};

use answers::{Answer, Refusal};
use bodies::Stop;
use fetch::{fetch_body, fetch_last};
use framing::{block_length, framed};
use lanes::Lanes;
use modes::Mode;
use order::{in_order, starting};
use store::{body_length, has_room, store_body};
use take::{nothing, take_block, take_body};

mod fetch;
mod framing;
mod store;
mod take;

// Lanes and mode go side by side and not as one value: the lanes of a list stay, and past each block the mode is another. That something is at
// most a block stands in clauses and not in a type: it is a count, a part of the values or the entries, and a type for each is no plainer.
// (Lanes are a number in the calls: README and docs/CALLS.md say that they take any.)

// The most values of a list.
pub const MOST: usize = 4096;

// 1, 7, 8: the lanes, where the values are a list. (`told`: as of the methods of `Lanes`.)
#[tactic(auto, unfolding(crate::specs::Calls::measure_refusal))]
fn check_list(lanes: usize, mode: Mode, values: &[u32]) -> Result<Lanes, Refusal>
    ensures value { result ≡ answer (measure_refusal lanes mode values.now) lanes }
    ensures told { IfOk result (λ few. is_lanes few ≡ true) }
{
    let few = Lanes::new(lanes)?;
    if MOST < values.len() {
        return Err(Refusal::TooMany);
    }
    if !in_order(starting(mode), values) {
        return Err(Refusal::OutOfOrder);
    }
    Ok(few)
}

// Measure a list: how long its body is.
pub fn measure(lanes: usize, mode: Mode, values: &[u32]) -> Answer
    ensures { result ≡ measure_answer lanes mode values.now }
{
    let lanes = check_list(lanes, mode, values)?;
    Ok(body_length(lanes, mode, values))
}

// Write a list: its body, at the front of `body`. Answers the body's length.
pub fn write(lanes: usize, mode: Mode, values: &[u32], body: &mut [u8]) -> Answer
    ensures value { result ≡ write_answer lanes mode values.now (length body.old) }
    ensures body_after { body.new ≡ write_output lanes mode values.now body.old }
    ensures demand_writes { DemandWrites lanes mode values.now body.old result body.new }
{
    let lanes = check_list(lanes, mode, values)?;
    if !has_room(lanes, mode, values, body.len()) {
        return Err(Refusal::NoRoom);
    }
    Ok(store_body(lanes, mode, values, body))
}

// 1, 7, 4; then block by block: the lanes, where the body is that of a list.
fn check_body(
    lanes: usize,
    mode: Mode,
    count: usize,
    body: &[u8],
    room: usize,
) -> Result<Lanes, Refusal>
    ensures { result ≡ answer (read_refusal lanes mode count body.now room) lanes }
{
    let few = Lanes::new(lanes)?;
    if MOST < count {
        return Err(Refusal::TooMany);
    }
    if room < count {
        return Err(Refusal::NoRoom);
    }
    take_body(few, starting(mode), count, body).outcome?;
    Ok(few)
}

// Read a list: the only list of `count` values that has this body, at the front of `values`. Answers the count.
pub fn read(lanes: usize, mode: Mode, count: usize, body: &[u8], values: &mut [u32]) -> Answer
    ensures value { result ≡ read_answer lanes mode count body.now (length values.old) }
    ensures values_after { values.new ≡ read_output lanes mode count body.now values.old }
    ensures demand_reads { DemandReads lanes mode count body.now values.old result values.new }
{
    let lanes = check_body(lanes, mode, count, body, values.len())?;
    fetch_body(lanes, mode, count, body, values);
    Ok(count)
}

// Check a body as reading does, and say where that stops: at 1 and 7 before any block, with nothing left and the mode as given.
pub fn check(lanes: usize, mode: Mode, count: usize, body: &[u8]) -> Stop
    ensures value { result ≡ check_stop lanes mode count body.now }
    ensures where_it_stops { WhereItStops lanes mode count body.now result }
{
    let Ok(lanes) = Lanes::new(lanes) else {
        return nothing(Err(Refusal::BadLanes), 0, mode);
    };
    if MOST < count {
        return nothing(Err(Refusal::TooMany), 0, mode);
    }
    take_body(lanes, starting(mode), count, body)
}

// The frame of the block that the bytes begin with: its width byte, and whether its payload is there. Answers how many bytes the block has.
pub fn frame(lanes: usize, bytes: &[u8]) -> Answer
    ensures { result ≡ frame_answer lanes bytes.now }
{
    let lanes = Lanes::new(lanes)?;
    let width = framed(lanes, bytes)?;
    Ok(block_length(lanes, width))
}

// Check the block that the bytes begin with, where `count` values are left and `mode` is the mode past those before it: of a list's first
// block `order::starting` of the list's mode, of a later one the mode at which the check of the block before stopped.
pub fn check_block(lanes: usize, mode: Mode, count: usize, bytes: &[u8]) -> Stop
    ensures { result ≡ check_block_stop lanes mode count bytes.now }
{
    match Lanes::new(lanes) {
        Ok(lanes) => take_block(lanes, mode, count, bytes),
        Err(refusal) => nothing(Err(refusal), 0, mode),
    }
}

// Read the block that the bytes begin with, given as to `check_block`: its values, at the front of `values`. Answers how many.
pub fn read_block(
    lanes: usize,
    mode: Mode,
    count: usize,
    bytes: &[u8],
    values: &mut [u32],
) -> Answer
    ensures value { result ≡ read_block_answer lanes mode count bytes.now (length values.old) }
    ensures values_after { values.new ≡ read_block_output lanes mode count bytes.now values.old }
{
    let lanes = Lanes::new(lanes)?;
    let k = lanes.block_size().min(count);
    if values.len() < k {
        return Err(Refusal::NoRoom);
    }
    take_block(lanes, mode, count, bytes).outcome?;
    fetch_last(lanes, mode, k, bytes, values);
    Ok(k)
}
