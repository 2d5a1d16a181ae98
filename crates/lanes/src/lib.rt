// How many lanes there may be and how wide an entry, rows of numbers, one for each lane, and the width of one number.
// (`as` between `u32` and `usize`: there is no `From` between them.)
#![tactic(auto)]

ghost use Rattle.std.specs.Prelude.{◌≡◌, true, ℕ, ◌+◌, ◌*◌, ◌<◌, ◌≤◌};
ghost use Rattle.answers.specs.Answers.{answer};
ghost use Rattle.layout.specs.Layout.{is_lanes, block_size, payload_size};
ghost use Rattle.layout.specs.Width.{significant};
ghost use Rattle.lanes.specs.Sizes.{lanes_refusal, bits_refusal};

use answers::Refusal;
use std::marker::Model;

pub mod scalar;

// A number of lanes that a block may have: 1, 4 or 8.
#[derive(Clone, Copy, Debug, PartialEq, Eq)]
pub struct Lanes {
    count: usize,
}

impl Model for Lanes {
    ghost Value = { ℕ };

    ghost view = { λ l. l.count };

    ghost invariant = { λ l. is_lanes l.count ≡ true };

    ghost inverse = { λ n. record { count = n } };
}

// (`told` says again what the type says: a proof that has a `Lanes` as an argument is not told it otherwise.)
impl Lanes {
    // So many lanes, or refusal 1.
    pub fn new(count: usize) -> Result<Lanes, Refusal>
        ensures { result ≡ answer (lanes_refusal count) count }
    {
        match count {
            1 | 4 | 8 => Ok(Lanes { count }),
            _ => Err(Refusal::BadLanes),
        }
    }

    pub fn count(self) -> usize
        ensures value { result ≡ self }
        ensures told { is_lanes result ≡ true }
        ensures bounds { (0 < result) × (result ≤ 8) }
    {
        self.count
    }

    // How many values a block has.
    pub fn block_size(self) -> usize
        ensures value { result ≡ block_size self }
        ensures told { is_lanes self ≡ true }
        ensures bounds { (0 < result) × (result ≤ 256) }
    {
        32 * self.count
    }

    // How many bytes the words of a payload take.
    pub fn payload_size(self, width: Width) -> usize
        ensures value { result ≡ payload_size self width }
        ensures bounds { result ≤ 1024 }
    {
        4 * self.count * width.bits() as usize
    }
}

// A width that an entry may have: 0 to 32.
#[derive(Clone, Copy, Debug, PartialEq, Eq)]
pub struct Width {
    bits: u32,
}

impl Model for Width {
    ghost Value = { ℕ };

    ghost view = { λ w. w.bits };

    ghost invariant = { λ w. w.bits ≤ 32 };

    ghost inverse = { λ n. record { bits = n } };
}

impl Width {
    // So many bits, or refusal 2.
    pub fn new(bits: u32) -> Result<Width, Refusal>
        ensures { result ≡ answer (bits_refusal bits) bits }
    {
        if bits <= 32 {
            Ok(Width { bits })
        } else {
            Err(Refusal::BadWidth)
        }
    }

    pub fn bits(self) -> u32
        ensures value { result ≡ self }
        ensures bounds { result ≤ 32 }
    {
        self.bits
    }
}

// The width of one number: 0 for 0.
pub fn most_significant_bit(v: u32) -> u32
    ensures { result ≡ significant v }
{
    if v == 0 { 0 } else { 32 - v.leading_zeros() }
}
