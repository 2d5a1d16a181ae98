// Replays the fixed list of the Rust's answers, which stands on standard input, and writes how many of them are ours.
#![tactic(auto)]

use kinds::Kind;
use lanes::Lanes;
use record::Head;
use std::io;
use std::io::Read;
use streams::read_full;
use tally::Tally;

mod kinds;
mod record;
mod tally;

// The 33 records of a lane count and a kind of mode, one for each width. Answers the checksum of the list up to there.
fn widths<R: Read>(
    rt: &impl Print,
    list: &mut R,
    lanes: Lanes,
    kind: Kind,
    start: u32,
) -> io::Result<u32> {
    let mut tally = Tally::default();
    let mut sum = start;
    for width in 0..33 {
        let head = Head { lanes, kind, width };
        let (seen, next) = head.replay(list, sum)?;
        tally = tally.with(seen);
        sum = next;
    }
    println!(rt; "lanes={}{kind}{tally}", lanes.count())?;
    Ok(sum)
}

// The four kinds of mode.
fn all_kinds<R: Read>(rt: &impl Print, list: &mut R, lanes: Lanes, start: u32) -> io::Result<u32> {
    let mut sum = start;
    for kind in [
        Kind::Plain,
        Kind::Sorted,
        Kind::StrictNone,
        Kind::StrictNumber,
    ] {
        sum = widths(rt, list, lanes, kind, sum)?;
    }
    Ok(sum)
}

// The checksum of the whole list, and how many bytes are left of it, up to 8.
fn end_of_list<R: Read>(rt: &impl Print, list: &mut R, sum: u32) -> io::Result<()> {
    let left = read_full(list, &mut [0; 8])?;
    println!(rt; "sum={sum} left={left}")
}

fn main(rt: HostRuntime) -> io::Result<()> {
    let mut list = rt.stdin();
    let mut sum = 0;
    for count in [1, 4, 8] {
        if let Ok(lanes) = Lanes::new(count) {
            sum = all_kinds(&rt, &mut list, lanes, sum)?;
        }
    }
    end_of_list(&rt, &mut list, sum)
}
