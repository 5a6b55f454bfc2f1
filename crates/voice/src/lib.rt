// One channel: what is written and read at its registers' offsets, its accepted states, and its ticks.
#![tactic(auto)]

mod accepted;
mod fresh;
mod reads;
mod serving;
mod sounding;
mod streaming;
mod ticking;
mod writes;

use registers::{Fifo, PcmRegisters, Registers};
use stream::{StreamCache, Streamed};
use ticks::{Oscillator, Sides};

// What moves in a voice's ticks.
#[derive(Clone, Copy)]
pub enum Kind {
    Silent,
    Oscillator,
    Sqv4,
    FifoDac,
}

// The parts of 8-byte alignment come first: with the registers first a frame of FIFO voices takes three times as long.
#[derive(Clone, Copy)]
pub struct Channel {
    pub oscillator: Oscillator,
    pub fifo: Fifo,
    pub stream: StreamCache,
    pub pcm: PcmRegisters,
    pub registers: Registers,
}

// What a stream's ticks move.
#[derive(Clone, Copy)]
pub struct StreamSound {
    pub voice: Streamed,
    pub sides: Sides,
}

// Ticks that the cache serves: they move the phase alone.
#[derive(Clone, Copy)]
pub struct Served {
    pub ticks: usize,
    pub phase: u64,
    pub q8: i32,
    pub sides: Sides,
}

// A channel after one tick, and what the tick gave to the two sides.
#[derive(Clone, Copy)]
pub struct ChannelTick {
    pub channel: Channel,
    pub sides: Sides,
}
