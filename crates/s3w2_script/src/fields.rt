// The fields of a line of a script: read, and written as those of its answer; numbers from a seed; what lines tell of no chip; a voice
// set and shown whole. A line's letter is field 0. A negative number is its two's complement of 64 bits.
mod reading;
mod seeds;
mod setting;
mod showing;
mod sounds;
mod telling;
mod writing;

pub(crate) use reading::{byte, letter, long, parse, size, version, word};
pub(crate) use seeds::Seeded;
pub(crate) use setting::{changed, fill_queue};
pub(crate) use showing::put_voice;
pub(crate) use sounds::{fill_sides, keep_sides};
pub(crate) use telling::told;
pub(crate) use writing::{put_figures, put_numbers, put_refused, sample_bits};

// The numbers of an answer.
#[derive(Clone, Copy, Debug, PartialEq, Eq)]
pub(crate) enum Figures {
    Nothing,
    One(u64),
    Two(u64, u64),
}
