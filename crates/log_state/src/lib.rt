// The state of a player as text: the lines of its session, the head and one for each voice, and then the bytes of its RAM.
#![tactic(auto)]

mod finding;
mod lines;
mod refusing;

use cores::CHIP_VOICES;
pub use finding::find;
pub use lines::{put_line, take_line};
use log_player::Player;
pub use refusing::{put_refusal, put_short};
use session::LineRefusal;

// The lines: the head, and one for each voice.
pub const LINES: usize = 1 + CHIP_VOICES;

// A player after a line was read, and what reading it answered.
#[derive(Clone, Copy)]
pub struct Taken {
    pub player: Player,
    pub answer: Result<(), LineRefusal>,
}

// What an input holds at a place: a line of the state, or one that a player printed before it, and the place behind it; a line
// that goes on, of which the bytes before a place count.
#[derive(Clone, Copy)]
pub enum Found {
    Line(usize),
    Sound(usize),
    Open(usize),
}
