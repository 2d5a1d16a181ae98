// Rows of values: "Entry k is in lane k mod L and row k div L."
ghost use Rattle.std.specs.Prelude.{◌≡◌, ℕ, ◌+◌, ◌≤◌, ◌<◌, length};
ghost use Rattle.layout.specs.Layout.{at};
ghost use Rattle.blocks.specs.kernel.Places.{RowStored};

use lanes::Lanes;

// The row that has in each lane in use what `number` answers of it.
pub(crate) fn row_of<F: Fn(usize) -> u32>(lanes: Lanes, number: F) -> [u32; 8]
    requires { (l : ℕ) → l < lanes → F.pre number l }
    ensures { (l : ℕ) → l < lanes → F.post number l (at result l) }
{
    let mut row = [0; 8];
    // (Tried as `from_fn` around `number`: that asks that it may be called at every index, and the proof did not close.)
    for l in 0..lanes.count() {
        row[l] = number(l);
    }
    row
}

// The row in the values from place `first` on, one for each lane in use.
pub(crate) fn store_row(out: &mut [u32], first: usize, lanes: Lanes, row: [u32; 8])
    requires { first + lanes ≤ length out.old }
    ensures { RowStored first lanes row out.old out.new }
{
    let used = lanes.count();
    out[first..first + used].copy_from_slice(&row[..used]);
}
