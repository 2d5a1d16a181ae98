// The lists that are written, each made from the words of its case.
use lanes::Lanes;
use tables::buffers::VALUES;
use tables::noise_after;
use tables::words::{amount, letter_at, narrow, second, value};

// lanes=4: the lanes with which a list is written.
pub(crate) fn lanes(case: &[u8]) -> usize {
    amount(b'l', case) as usize
}

// count=33: how many values are written, or read.
pub(crate) fn count(case: &[u8]) -> usize {
    amount(b'c', case) as usize
}

// Number k of noise: the first bits of x, as many as the width of its block, (32 + 17b) mod 33 in block b. In a block's first number they
// are all 1. (Lanes that no block has are taken as 8.)
fn noise(lanes: usize, k: usize, x: u32) -> u32 {
    let size = Lanes::new(lanes).map_or(256, Lanes::block_size);
    let all = if k % size == 0 { u32::MAX } else { x };
    let left_out = 32 - (32 + k / size % 33 * 17) % 33;
    all.unbounded_shr(left_out as u32)
}

// The rule of the values: `values=noise` is noise, `values=rising` goes on by more than 0, and `values=5:2` begins with 5 and goes on by 2
// and wraps.
#[derive(Clone, Copy)]
enum Rule {
    Noise,
    Rising,
    Even { start: u32, step: u32 },
}

impl Rule {
    // (A `match` on a letter: it is the input's, and each arm is one value.)
    fn of(case: &[u8]) -> Rule {
        match letter_at(value(b'v', case), 0) {
            b'n' => Rule::Noise,
            b'r' => Rule::Rising,
            _ => Rule::Even {
                start: narrow(amount(b'v', case)),
                step: narrow(second(b'v', case)),
            },
        }
    }

    fn value_at(self, k: usize, before: u32, noise: u32) -> u32 {
        match self {
            Rule::Noise => noise,
            Rule::Rising => before.wrapping_add(noise / 4096 + 1),
            Rule::Even { start, .. } if k == 0 => start,
            Rule::Even { step, .. } => before.wrapping_add(step),
        }
    }
}

// So many values by a rule, and then zeros.
fn by_rule(lanes: usize, count: usize, rule: Rule) -> [u32; VALUES] {
    let mut values = [0; VALUES];
    let mut x = 1;
    let mut before = 0;
    for (k, value) in values[..count.min(VALUES)].iter_mut().enumerate() {
        x = noise_after(x);
        before = rule.value_at(k, before, noise(lanes, k, x));
        *value = before;
    }
    values
}

// At a place, where there is such a place, is this item.
pub(crate) fn put<T: Copy>(items: &mut [T], place: u64, item: T) {
    if let Some(there) = items.get_mut(place as usize) {
        *there = item;
    }
}

// So many values of a case, and then zeros, but for those that have their own word: odd=3:9, or next=3:9, at place 3 is the value 9.
pub(crate) fn list_of(case: &[u8], count: usize) -> [u32; VALUES] {
    let mut values = by_rule(lanes(case), count, Rule::of(case));
    for letter in *b"on" {
        put(
            &mut values,
            amount(letter, case),
            narrow(second(letter, case)),
        );
    }
    values
}
