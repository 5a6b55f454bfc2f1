// The lines that clock frames.
use crate::fields;
use crate::fields::Seeded;
use s3w2::{Called, Chip};

// The most stems that a line asks for, and the most values of a side.
pub(crate) const STEMS: usize = 16384;

const SIDE: usize = 1024;

// The frames that are clocked at once where their values are only summed.
const AT_ONCE: usize = 1000;

// How many values the left side, or stems, and the right side have.
#[derive(Clone, Copy)]
struct Lengths {
    left: usize,
    right: usize,
}

fn both(n: usize) -> Lengths {
    Lengths { left: n, right: n }
}

fn asked_lengths(line: &[u64]) -> Lengths {
    let frames = fields::size(line, 1);
    match fields::letter(line) {
        b's' => both(frames % AT_ONCE),
        b'S' => Lengths {
            left: fields::size(line, 2).min(STEMS),
            right: 0,
        },
        _ => Lengths {
            left: frames.min(SIDE),
            right: fields::size(line, 2).min(SIDE),
        },
    }
}

// How often AT_ONCE frames more are clocked.
fn more_turns(line: &[u64]) -> usize {
    if fields::letter(line) == b's' {
        return fields::size(line, 1) / AT_ONCE;
    }
    0
}

// How many numbers a line's frames give.
pub(crate) fn count(line: &[u64]) -> usize {
    match fields::letter(line) {
        b'S' | b'X' | b'Y' | b'y' => {
            let n = asked_lengths(line);
            n.left.wrapping_add(n.right)
        }
        b's' => 2,
        _ => 0,
    }
}

// A sample that the chip's frames give.
trait SideSample: Seeded {
    // Clocks frames into stems, or two sides, as a line asks.
    fn clocked(
        chip: Chip,
        line: &[u64],
        ram: &[u8],
        queues: &mut [i16],
        left: &mut [Self],
        right: &mut [Self],
    ) -> Called;
}

impl SideSample for i16 {
    fn clocked(
        chip: Chip,
        line: &[u64],
        ram: &[u8],
        queues: &mut [i16],
        left: &mut [i16],
        right: &mut [i16],
    ) -> Called {
        match fields::letter(line) {
            b'S' => chip_sound::clock(chip, ram, queues, fields::size(line, 1), left),
            b'X' => chip_sound::clock_mixed(chip, ram, queues, left, right),
            _ => chip_sound::clock_mixed_into(chip, ram, queues, left, right),
        }
    }
}

impl SideSample for i32 {
    fn clocked(
        chip: Chip,
        line: &[u64],
        ram: &[u8],
        queues: &mut [i16],
        left: &mut [i32],
        right: &mut [i32],
    ) -> Called {
        chip_sound::clock_mixed_into_i32(chip, ram, queues, left, right)
    }
}

// Stems, or two sides, as a line has them before the call; what they hold after it is put to the numbers.
fn sound_over<T: SideSample>(
    chip: Chip,
    line: &[u64],
    ram: &[u8],
    queues: &mut [i16],
    left: &mut [T],
    right: &mut [T],
    numbers: &mut [u64],
) -> Called {
    fields::fill_sides(&mut *left, &mut *right, line);
    let called = T::clocked(chip, line, ram, queues, &mut *left, &mut *right);
    fields::keep_sides(numbers, &*left, &*right, line);
    called
}

// A line that clocks frames, what is lent for it, and the numbers that its frames give, in order.
#[derive(Drop)]
struct Sounding<'a> {
    line: &'a [u64],
    ram: &'a [u8],
    queues: &'a mut [i16],
    numbers: &'a mut [u64],
}

impl Sounding<'_> {
    // Frames over the first values of both sides, or stems.
    fn over<T: SideSample>(
        &mut self,
        chip: Chip,
        n: Lengths,
        left: &mut [T],
        right: &mut [T],
    ) -> Called {
        let line = self.line;
        let ram = self.ram;
        let l = n.left.min(left.len());
        let r = n.right.min(right.len());
        let (left, right) = (&mut left[..l], &mut right[..r]);
        let queues = &mut *self.queues;
        let numbers = &mut *self.numbers;
        sound_over(chip, line, ram, queues, left, right, numbers)
    }

    fn sides(&mut self, chip: Chip, n: Lengths) -> Called {
        let mut left = [0i16; STEMS];
        let mut right = [0i16; SIDE];
        self.over(chip, n, &mut left, &mut right)
    }

    // Two sides of 32 bits.
    // Kept as it is: tried with arrays of any sample; that they fit in memory cannot be shown where their type is not known.
    fn wide_sides(&mut self, chip: Chip, n: Lengths) -> Called {
        let mut left = [0i32; SIDE];
        let mut right = [0i32; SIDE];
        self.over(chip, n, &mut left, &mut right)
    }

    // The frames that the line asks for; where their values are only summed, the odd ones first.
    fn turns(&mut self, chip: Chip) -> Called {
        let line = self.line;
        let mut called = self.sides(chip, asked_lengths(line));
        for _ in 0..more_turns(line) {
            let last = called.chip;
            called = self.sides(last, both(AT_ONCE));
        }
        called
    }
}

// Clocks frames; the numbers that they give are put in order.
pub(crate) fn sounded(
    chip: Chip,
    line: &[u64],
    ram: &[u8],
    queues: &mut [i16],
    numbers: &mut [u64],
) -> Called {
    let mut sounding = Sounding {
        line,
        ram,
        queues,
        numbers,
    };
    match fields::letter(line) {
        b'y' => sounding.wide_sides(chip, asked_lengths(line)),
        _ => sounding.turns(chip),
    }
}
