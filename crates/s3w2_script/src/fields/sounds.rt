// Two sides of samples: filled from a line's seed, kept as numbers, summed.
use crate::fields::reading::{letter, long};
use crate::fields::seeds::{Seeded, fill};
use crate::fields::writing::bits;

// Fills the left side, then the right one, from a line's seed; those whose values are only summed stay as they are.
pub(crate) fn fill_sides<T: Seeded>(left: &mut [T], right: &mut [T], line: &[u64]) {
    if letter(line) != b's' {
        let seed = fill(left, long(line, 3));
        fill(right, seed);
    }
}

// Keeps samples as numbers, as far as there is room.
fn keep<T: Seeded>(numbers: &mut [u64], samples: &[T]) {
    for (number, sample) in numbers.iter_mut().zip(samples) {
        *number = bits((*sample).into());
    }
}

fn sum<T: Seeded>(side: &[T], before: u64) -> u64 {
    let mut s = before;
    for &x in side {
        s = s.wrapping_add(bits(x.into()));
    }
    s
}

// Keeps the sides as numbers, the left one first, or adds their values to the first two numbers, as a line asks.
pub(crate) fn keep_sides<T: Seeded>(numbers: &mut [u64], left: &[T], right: &[T], line: &[u64]) {
    if letter(line) != b's' {
        let end = left.len().min(numbers.len());
        keep(&mut *numbers, left);
        keep(&mut numbers[end..], right);
        return;
    }
    if 1 < numbers.len() {
        numbers[0] = sum(left, numbers[0]);
        numbers[1] = sum(right, numbers[1]);
    }
}
