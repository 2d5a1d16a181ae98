// The operations on a row. The Rust's `DataType` is an array of eight numbers by value, of which a block of L lanes uses the first L.
ghost use Rattle.std.specs.Prelude.{◌≡◌, ◌*◌, ◌/◌, ◌%◌, ◌^◌, min, bit_and, bit_or};
ghost use Rattle.layout.specs.Layout.{at};
ghost use Rattle.lanes.specs.Rows.{IsRow, last_lane};
ghost use Rattle.lanes.specs.Sums.{plus, minus, before, running};
ghost use Rattle.layout.specs.Width.{or_all};

use std::array::from_fn;

// The row that has el in every lane.
pub fn set1(el: u32) -> [u32; 8]
    ensures { IsRow result (λ l. el) }
{
    [el; 8]
}

// Each number shifted up; 32 places or more leave nothing.
pub fn left_shift_32(el: [u32; 8], shift: u32) -> [u32; 8]
    ensures { IsRow result (λ l. at el l * 2 ^ shift % 2 ^ 32) }
{
    from_fn(|l| el[l].unbounded_shl(shift))
}

// Each number shifted down; 32 places or more leave nothing.
pub fn right_shift_32(el: [u32; 8], shift: u32) -> [u32; 8]
    ensures { IsRow result (λ l. at el l / 2 ^ shift) }
{
    from_fn(|l| el[l].unbounded_shr(shift))
}

pub fn op_or(left: [u32; 8], right: [u32; 8]) -> [u32; 8]
    ensures { IsRow result (λ l. bit_or (at left l) (at right l)) }
{
    from_fn(|l| left[l] | right[l])
}

pub fn op_and(left: [u32; 8], right: [u32; 8]) -> [u32; 8]
    ensures { IsRow result (λ l. bit_and (at left l) (at right l)) }
{
    from_fn(|l| left[l] & right[l])
}

// The numbers of the lanes in use, or-ed together. (`usize` and not `Lanes`: it answers for any number, and the documents name it.)
pub fn or_collapse_to_u32(accumulator: [u32; 8], lanes: usize) -> u32
    ensures { result ≡ or_all (at accumulator) lanes }
{
    accumulator.iter().take(lanes).fold(0, |all, el| all | el)
}

fn last_lane(row: [u32; 8], lanes: usize) -> u32
    ensures { result ≡ last_lane lanes row }
{
    row.get(lanes.saturating_sub(1)).copied().unwrap_or(0)
}

pub fn add(left: [u32; 8], right: [u32; 8]) -> [u32; 8]
    ensures { IsRow result (λ l. plus (at left l) (at right l)) }
{
    from_fn(|l| left[l].wrapping_add(right[l]))
}

pub fn sub(left: [u32; 8], right: [u32; 8]) -> [u32; 8]
    ensures { IsRow result (λ l. minus (at left l) (at right l)) }
{
    from_fn(|l| left[l].wrapping_sub(right[l]))
}

// Each number less the one before it; before the first stands the last number in use of the row before.
// (`usize`, as `or_collapse_to_u32`.)
pub fn compute_delta(curr: [u32; 8], prev: [u32; 8], lanes: usize) -> [u32; 8]
    ensures { IsRow result (λ l. minus (at curr l) (before (last_lane lanes prev) (at curr) l)) }
{
    let last = last_lane(prev, lanes);
    from_fn(|l| curr[l].wrapping_sub(if l == 0 { last } else { curr[l - 1] }))
}

// The running sums of a row of differences, on top of the last number in use of the row before. (`usize`, as `or_collapse_to_u32`. Not by `map`,
// which takes each number out of an `Option`; and not inlined: in the loop over the rows of a block a plain row would go lane by lane too.)
#[inline(never)]
pub fn integrate_delta(offset: [u32; 8], delta: [u32; 8], lanes: usize) -> [u32; 8]
    ensures { IsRow result (running (last_lane lanes offset) (at delta)) }
{
    let mut sum = last_lane(offset, lanes);
    from_fn(|l| {
        sum = sum.wrapping_add(delta[l]);
        sum
    })
}
