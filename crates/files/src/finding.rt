// Lines of a header, found at the front of some bytes, and how long they are, if they are there. (That they lie within the bytes stands in
// clauses and not in a type, which would have to borrow the bytes: no plainer.)
ghost use Rattle.std.specs.Prelude.{◌≡◌, ◌≤◌, length, IfSome};
ghost use Rattle.files.specs.kernel.Finding.{mode_lines_in, settings_lines_in, size_lines_in, header_lines_in};

use crate::Found;
use crate::heading::{Header, Settings};
use lanes::Lanes;
use modes::{Initial, Mode};
use text::{begins, number_line};

// The two forms with none behind `first=`.
const PLAIN: &[u8] = b"mode=plain\nfirst=none\n";

const STRICT: &[u8] = b"mode=strict\nfirst=none\n";

// What the mode and first lines say.
#[derive(Clone, Copy, Debug, PartialEq, Eq)]
pub(crate) struct ModeLines {
    pub(crate) mode: Mode,
    pub(crate) length: usize,
}

// The mode and first lines that the bytes begin with. Strict with 4,294,967,295 is not written so.
#[tactic(auto, unfolding(crate::specs::kernel::Finding::mode_lines_in))]
pub(crate) fn mode_lines(bytes: &[u8]) -> Option<ModeLines>
    ensures value { result ≡ mode_lines_in bytes.now }
    ensures within { IfSome result (λ m. m.length ≤ length bytes.now) }
{
    if begins(PLAIN, bytes) {
        return Some(ModeLines {
            mode: Mode::Plain,
            length: PLAIN.len(),
        });
    }
    if begins(STRICT, bytes) {
        return Some(ModeLines {
            mode: Mode::Strict(Initial::None),
            length: STRICT.len(),
        });
    }
    if let Some(sorted) = number_line(b"mode=sorted\nfirst=", bytes) {
        return Some(ModeLines {
            mode: Mode::Sorted(sorted.value),
            length: sorted.length,
        });
    }
    let strict = number_line(b"mode=strict\nfirst=", bytes)?;
    if strict.value == u32::MAX {
        return None;
    }
    Some(ModeLines {
        mode: Mode::Strict(Initial::Number(strict.value)),
        length: strict.length,
    })
}

// The lanes, mode and first lines.
#[tactic(auto, using(answers::proofs::Parts::part_is), unfolding(crate::specs::kernel::Finding::settings_lines_in))]
pub(crate) fn settings_lines(text: &[u8]) -> Option<Settings>
    ensures value { result ≡ settings_lines_in text.now }
    ensures within { IfSome result (λ s. s.length ≤ length text.now) }
{
    let laned = number_line(b"lanes=", text)?;
    // (only asked: `Header` and `Settings` are public, and have the lanes as a number, as C is given it)
    Lanes::new(laned.value as usize).ok()?;
    let moded = mode_lines(&text[laned.length..])?;
    Some(Settings {
        lanes: laned.value,
        mode: moded.mode,
        length: laned.length + moded.length,
    })
}

// What the count and bytes lines say. The empty line behind them is of their length.
#[derive(Clone, Copy, Debug, PartialEq, Eq)]
pub(crate) struct SizeLines {
    pub(crate) count: u32,
    pub(crate) bytes: u32,
    pub(crate) length: usize,
}

#[tactic(auto, using(answers::proofs::Parts::part_is), unfolding(crate::specs::kernel::Finding::size_lines_in))]
pub(crate) fn size_lines(bytes: &[u8]) -> Option<SizeLines>
    ensures value { result ≡ size_lines_in bytes.now }
    ensures within { IfSome result (λ z. z.length ≤ length bytes.now) }
{
    let counted = number_line(b"count=", bytes)?;
    let sized = number_line(b"bytes=", &bytes[counted.length..])?;
    let end = counted.length + sized.length;
    if !begins(b"\n", &bytes[end..]) {
        return None;
    }
    Some(SizeLines {
        count: counted.value,
        bytes: sized.value,
        length: end + 1,
    })
}

// All of them.
#[tactic(auto, using(answers::proofs::Parts::part_is), unfolding(crate::specs::kernel::Finding::header_lines_in))]
pub(crate) fn header_lines(file: &[u8]) -> Option<Found>
    ensures value { result ≡ header_lines_in file.now }
    ensures within { IfSome result (λ f. f.start ≤ length file.now) }
{
    let said = settings_lines(file)?;
    let sized = size_lines(&file[said.length..])?;
    Some(Found {
        header: Header {
            lanes: said.lanes,
            mode: said.mode,
            count: sized.count,
            bytes: sized.bytes,
        },
        start: said.length + sized.length,
    })
}
