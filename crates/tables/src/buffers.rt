// Room for a table, buffers that are full of marks before a call, and the first so many of what a buffer holds.
ghost use Rattle.std.specs.Prelude.{◌≡◌, ℕ, min, length, take, drop, replicate};
ghost use Rattle.std.specs.Fn.{FnOnceReturnsAtMut};
ghost use Rattle.std.specs.List.{common_prefix_len};
ghost use Rattle.tables.specs.Tables.{Converts, sum_from};

use crate::checksum;

// More bytes than any call or program writes, and more values than the longest list has.
pub const BYTES: usize = 45064;

pub const VALUES: usize = 4104;

// A byte and a value that are marks.
pub const BYTE_MARK: u8 = 165;

pub const VALUE_MARK: u32 = 2863311530;

// More bytes than a table has. (The project has no heap: a table is read into memory of a fixed length.)
pub const ROOM: usize = 262144;

// (The three below say the constants in numbers: no clause holds a constant.)
pub fn table_room() -> [u8; ROOM]
    ensures value { result ≡ replicate 262144 0 }
    ensures len { 262144 ≡ length result }
{
    [0; ROOM]
}

pub fn marked_bytes() -> [u8; BYTES]
    ensures value { result ≡ replicate 45064 165 }
    ensures len { 45064 ≡ length result }
{
    [BYTE_MARK; BYTES]
}

pub fn marked_values() -> [u32; VALUES]
    ensures value { result ≡ replicate 4104 2863311530 }
    ensures len { 4104 ≡ length result }
{
    [VALUE_MARK; VALUES]
}

// The first `count` items, or all where there are fewer.
pub fn first<T>(items: &[T], count: usize) -> &[T]
    ensures { result.now ≡ take (min count (length items.now)) items.now }
{
    &items[..count.min(items.len())]
}

// How many items at the front of both are the same.
pub fn same_front<T: PartialEq>(items: &[T], others: &[T]) -> usize
    ensures { result ≡ common_prefix_len T.eq items.now others.now }
{
    items
        .iter()
        .zip(others)
        .take_while(|(item, other)| *item == *other)
        .count()
}

// A call on the first `room` items of a buffer, or on all where there are fewer: what it answers, and the checksum of what it left there.
pub fn on_first<T: Copy + Into<u32>, A, F: FnOnce(&mut [T]) -> A>(
    buffer: &mut [T],
    room: usize,
    call: F,
) -> (A, u32)
    requires { F.IsAlwaysCallable call }
    ensures called { FnOnceReturnsAtMut F.FnOnce call (take (min room (length buffer.old)) buffer.old) result.0 (take (min room (length buffer.old)) buffer.new) }
    ensures sum { (number : T → ℕ) → Converts T.converts number → result.1 ≡ sum_from number 0 (take (min room (length buffer.old)) buffer.new) }
    ensures rest_unchanged { drop (min room (length buffer.old)) buffer.new ≡ drop (min room (length buffer.old)) buffer.old }
{
    let size = room.min(buffer.len());
    let output = &mut buffer[..size];
    let answer = call(output);
    let sum = checksum(output);
    (answer, sum)
}
