// The chip: two cores of eight voices over one lent RAM and one lent queue buffer, and its calls with their refusals.
#![tactic(auto)]

mod addressed;
mod channels;
mod fresh;
mod ram;
mod refusals;

pub use refusals::{is_done, number};
use version::SguVersion;
use voices::Core;

#[derive(Clone, Copy)]
pub struct Chip {
    pub version: SguVersion,
    pub cores: [Core; 2],
}

// What a call returns.
#[derive(Clone, Copy, Debug, PartialEq, Eq)]
pub enum Returned {
    Done,
    Byte(u8),
    // A tick's sample, and whether the tick turned its voice off.
    Sample { value: i16, ended: bool },
    Count(usize),
    Flag(bool),
    // The voices that some frames turned off, as a set: bit 8 k + n for channel n of core k.
    Ended(u16),
}

// Why a call is turned away.
#[derive(Clone, Copy, Debug, PartialEq, Eq)]
pub enum Refusal {
    RamLength,
    QueueBuffer,
    NotAccepted,
    StemBuffer,
}

// What a call answers.
pub type Answer = Result<Returned, Refusal>;

#[derive(Clone, Copy)]
pub struct Called {
    pub chip: Chip,
    pub answer: Answer,
}
