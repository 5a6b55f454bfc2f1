// Eight voices with the tables beside them.
#![tactic(auto)]

mod accepted;
mod activity;
mod addresses;
mod fresh;
mod lists;
mod reads;
mod stored;
mod writes;

pub use activity::{actives, ended};
pub use addresses::{channel_of, offset_of};
pub use lists::{empties, write_at};
pub use reads::{read_empties, seen};
use sizes::WAVETABLES_SIZE;
pub use stored::clear_fragments;
use voice::Channel;

// A voice's decoded fragments are the 128 samples from 128 times the channel on, its wavetable the 256 bytes from 256 times
// the channel on.
// Kept as it is: the three are public fields, a register's address counts over all eight wavetables, and a channel is copied without its tables.
#[derive(Clone, Copy)]
pub struct Core {
    pub channels: [Channel; 8],
    pub fragments: [i16; 1024],
    pub wavetables: [u8; WAVETABLES_SIZE],
}
