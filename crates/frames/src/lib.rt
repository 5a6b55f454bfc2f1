// Turns of the eight voices: so many ticks of one after another; lists of calls, whose clocks are turns.
#![tactic(auto)]

mod asking;
mod lists;
mod loops;
mod moves;
mod single;

pub use asking::{clocked_by, fills};
pub use lists::play;
pub use loops::run;
pub use single::tick;
use version::SguVersion;
use voices::Core;

// The kinds of a list's calls, by number. A number that is none of them asks for nothing.
pub const WRITE_REGISTER: u8 = 0;

pub const WRITE_PCM_RAM: u8 = 1;

pub const READ_REGISTER: u8 = 2;

pub const PEEK_REGISTER: u8 = 3;

pub const CLOCK: u8 = 4;

pub const SET_VERSION: u8 = 5;

// The core after a tick, and its sample.
#[derive(Clone, Copy)]
pub struct Turned {
    pub core: Core,
    pub sample: i16,
}

// The core after a list of calls that were made, and its version.
#[derive(Clone, Copy)]
pub struct Played {
    pub core: Core,
    pub version: SguVersion,
}

// The core after some of them, its version, and the place behind the stems that were given.
#[derive(Clone, Copy)]
pub(crate) struct Going {
    pub core: Core,
    pub version: SguVersion,
    pub at: usize,
}

// What a call of a list asks for.
#[derive(Clone, Copy, Debug, PartialEq, Eq)]
pub enum Asked {
    WriteRegister,
    WritePcmRam,
    Read,
    Peek,
    Clock,
    SetVersion,
    Nothing,
}

// The voices in turn, from a first one on and round again.
#[derive(Clone, Copy)]
struct Round {
    version: SguVersion,
    first: usize,
}
