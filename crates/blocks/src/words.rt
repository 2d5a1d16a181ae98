// Words of a payload: "Word w of lane l starts at byte 4(wL + l), lowest byte first." (The Rust's pointers to `DataType`.)
ghost use Rattle.std.specs.Prelude.{◌≡◌, ◌+◌, ◌*◌, ◌≤◌, length};
ghost use Rattle.layout.specs.Layout.{word_at};
ghost use Rattle.blocks.specs.kernel.Places.{with_word, WordsStored};

use lanes::Lanes;

// The word that starts at byte `start`.
pub(crate) fn load_word(bytes: &[u8], start: usize) -> u32
    requires { start + 4 ≤ length bytes.now }
    ensures { result ≡ word_at bytes.now start }
{
    u32::from_le_bytes([
        bytes[start],
        bytes[start + 1],
        bytes[start + 2],
        bytes[start + 3],
    ])
}

// The word v from byte `start` on.
fn store_word(out: &mut [u8], start: usize, v: u32)
    requires { start + 4 ≤ length out.old }
    ensures { out.new ≡ with_word out.old start v }
{
    out[start..start + 4].copy_from_slice(&v.to_le_bytes());
}

// The row in the words from word `first` of the payload on, one for each lane in use. (No plainer over `chunks_exact_mut`, which would be cut to
// the row first.)
pub(crate) fn store_words(out: &mut [u8], first: usize, lanes: Lanes, row: [u32; 8])
    requires { 4 * (first + lanes) ≤ length out.old }
    ensures { WordsStored first lanes row out.old out.new }
{
    for (l, &word) in row[..lanes.count()].iter().enumerate() {
        store_word(out, 4 * (first + l), word);
    }
}
