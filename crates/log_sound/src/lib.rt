// A log's sound: its lines as lists of calls, each list played by the chip at once, with the stems of its frames.
#![tactic(auto)]

mod gathering;
mod playing;

pub use gathering::pass;
pub use log_player::look;
pub use playing::play;
use s3w2::{Answer, Chip};

// Lines that were taken as calls: how many, how many frames they clock, and the place behind them.
#[derive(Clone, Copy)]
pub struct Gathered {
    pub count: usize,
    pub frames: usize,
    pub from: usize,
}

// The chip after some lines: what it answers to them as one list, how many they are, how many frames they clock, and the place
// behind them.
#[derive(Clone, Copy)]
pub struct Sounded {
    pub chip: Chip,
    pub answer: Answer,
    pub count: usize,
    pub frames: usize,
    pub from: usize,
}
