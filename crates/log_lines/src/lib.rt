// A log: what a line asks for.
#![tactic(auto)]

mod parsing;
mod text;

pub use parsing::{number, parse};
pub use text::{peak, put_bad, put_frames, put_peak, put_read_back};

// A line of a log. An address is a register's, or a byte's in RAM.
#[derive(Clone, Copy, PartialEq, Eq, Debug)]
pub enum Line {
    Write { address: u32, value: u8 },
    WriteRam { address: u32, value: u8 },
    Read(u32),
    Peek(u32),
    Clock(u32),
    Version(u32),
}

// Why a line is bad. An `Unmapped` one is well formed and names a register that is not there; in a log with frame times a `Late` one has
// a stamp below the one before it, and a `Crowded` one is one too many at its frame.
#[derive(Clone, Copy, PartialEq, Eq, Debug)]
pub enum LineFault {
    Malformed,
    Unmapped,
    Late,
    Crowded,
}
