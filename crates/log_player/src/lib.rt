// A log played: each line on a chip, and the text that it prints.
#![tactic(auto)]

ghost use Rattle.std.specs.Prelude.{◌≡◌};
ghost use Rattle.log_player.specs.declared.Stop.TheVariants.{Bad};

mod batches;
mod playing;
mod runs;
mod steps;

pub use batches::listed_call;
use log_lines::LineFault;
pub use runs::has_room;
use s3w2::{Answer, Chip, Refusal};
pub use steps::{line_end, look};

// A chip, and the largest absolute frame values that it has given, ahead of the clamp.
#[derive(Clone, Copy)]
pub struct Player {
    pub chip: Chip,
    pub left: u32,
    pub right: u32,
}

// A fresh player, and what making its chip answered.
#[derive(Clone, Copy)]
pub struct Made {
    pub player: Player,
    pub answer: Answer,
}

// Why no line is played: one is bad, or the chip refuses calls over the RAM and the queue buffer that are lent to it.
#[derive(Clone, Copy, PartialEq, Eq, Debug)]
pub enum Stop {
    Bad(LineFault),
    Refused(Refusal),
}

impl From<LineFault> for Stop {
    ghost from_gives = { λ why stop. stop ≡ Bad why };

    fn from(why: LineFault) -> Stop {
        Stop::Bad(why)
    }
}

// What an input holds at a place: a line, and the place of the next one; no whole line; or why no line is played.
pub type Next = Result<Option<usize>, Stop>;

// A player after some lines of an input: what it holds behind them, where, the number of the line there, and the place behind
// what they have printed.
#[derive(Clone, Copy)]
pub struct Ran {
    pub player: Player,
    pub next: Next,
    pub from: usize,
    pub number: u64,
    pub end: usize,
}

// A line as the call of a list that it makes: its kind is one of crate `frames`' numbers.
// Kept as it is: `clocked_by` takes the number and the lists hold it, so an `Asked` would be made a number again at each use.
#[derive(Clone, Copy)]
pub struct ListedCall {
    pub kind: u8,
    pub address: u32,
    pub value: u8,
}

// So many lines, the frames that they clock, and the place behind them.
// Kept as it is: the lists are fixed arrays of the caller, of which so many places are filled.
#[derive(Clone, Copy)]
pub(crate) struct Gathered {
    pub count: usize,
    pub frames: usize,
    pub from: usize,
}

// A player after some lines, the place behind them, and the number of the line there.
#[derive(Clone, Copy)]
pub(crate) struct Batch {
    pub player: Player,
    pub from: usize,
    pub number: u64,
}

// Room for the text of any line: it has at most 16,000 bytes, of 1,000 frames.
pub(crate) const ROOM: usize = 16384;
