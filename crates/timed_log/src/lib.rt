// A log with frame times: each line begins with the frame at which it is due. The times are written out as `C` lines into a lent buffer,
// and what stands there is played as any log is.
#![tactic(auto)]

mod ends;
mod lines;
mod runs;
mod unrolling;

pub use lines::number;
use log_lines::LineFault;
use log_player::{Next, Player};
use s3w2::Answer;

// At most so many lines are due at one frame.
pub const FRAME_LINES: u32 = 64;

// A line of a timed log: its stamp, and the place behind it at which what is due begins.
#[derive(Clone, Copy, PartialEq, Eq, Debug)]
pub struct Due {
    pub stamp: u32,
    pub from: usize,
}

// The same, or why the line is bad.
pub type TimedLine = Result<Due, LineFault>;

// The frames that a log has written out, and how many lines stand behind them; none of either by default.
#[derive(Clone, Copy, Default)]
pub struct Clockwork {
    pub frames: u32,
    pub lines: u32,
}

// A line in an input: its stamp, where the plain line in it begins, and the place behind it.
#[derive(Clone, Copy, PartialEq, Eq, Debug)]
pub struct LineAhead {
    pub stamp: u32,
    pub from: usize,
    pub to: usize,
}

// What an input holds at a place: a line; no whole line; or why the line is bad.
pub type Ahead = Result<Option<LineAhead>, LineFault>;

// Some lines of an input written out: the clockwork then, the place behind them, the number of the line there, and the place behind the text.
#[derive(Clone, Copy)]
pub struct Unrolled {
    pub clock: Clockwork,
    pub from: usize,
    pub number: u64,
    pub end: usize,
}

// A player, and a log's clockwork: of the text that was written out, the part from `from` to before `end` is not played yet.
#[derive(Clone, Copy)]
pub struct Timed {
    pub player: Player,
    pub clock: Clockwork,
    pub from: usize,
    pub end: usize,
}

// A fresh one, and what making its chip answered.
#[derive(Clone, Copy)]
pub struct MadeTimed {
    pub timed: Timed,
    pub answer: Answer,
}

// A player and its clockwork after a turn: what the input holds then, where, the number of the line there, and the place behind what was printed.
#[derive(Clone, Copy)]
pub struct TimedRan {
    pub timed: Timed,
    pub next: Next,
    pub from: usize,
    pub number: u64,
    pub end: usize,
}

// The end of a log: `Ok(None)` where all is played, and the place behind what was printed.
#[derive(Clone, Copy)]
pub struct Finished {
    pub next: Next,
    pub end: usize,
}
