// The chip's sound: a voice's tick, frames of stems, and frames added to two sides.
#![tactic(auto)]

mod both;
mod ended;
mod mixing;
mod sound;

pub use mixing::{clock_mixed, clock_mixed_into, clock_mixed_into_i32};
pub use sound::{clock, generate_sample};

// Which voices of each core are active.
#[derive(Clone, Copy)]
pub(crate) struct Flags {
    pub first: [bool; 8],
    pub second: [bool; 8],
}
