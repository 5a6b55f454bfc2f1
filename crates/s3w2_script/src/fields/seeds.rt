// Numbers from a seed.

pub(crate) fn next_seed(seed: u64) -> u64 {
    (seed % 2147483648 * 1103515245 + 12345) % 2147483648
}

pub(crate) fn bits_of(seed: u64) -> u16 {
    (seed / 256 % 65536) as u16
}

// A sample of a side.
pub(crate) trait Seeded: Copy + Default + Into<i32> {
    // The sample that follows a seed, and the seed after it.
    fn after(seed: u64) -> (Self, u64);
}

impl Seeded for i16 {
    fn after(seed: u64) -> (i16, u64) {
        let next = next_seed(seed);
        (bits_of(next).cast_signed(), next)
    }
}

// Two halves, the upper one first; each takes a step of the seed.
impl Seeded for i32 {
    fn after(seed: u64) -> (i32, u64) {
        let high = next_seed(seed);
        let low = next_seed(high);
        let bits = (bits_of(high) as u32) * 65536 + (bits_of(low) as u32);
        (bits.cast_signed(), low)
    }
}

// Puts samples from a seed, and answers the seed after them.
pub(crate) fn fill<T: Seeded>(samples: &mut [T], seed: u64) -> u64 {
    let mut last = seed;
    for sample in samples.iter_mut() {
        let (value, next) = T::after(last);
        *sample = value;
        last = next;
    }
    last
}
