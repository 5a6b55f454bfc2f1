// The ticks of every waveform but the stream, and a voice's ticks into its two sides.
#![tactic(auto)]

mod loops;
mod mix;
mod noise;
mod pcm;
mod queue;
mod settings;
mod wavetable;

use registers::Fifo;

#[derive(Clone, Copy)]
pub struct Oscillator {
    pub phase: u64,
    pub old_phase: u64,
    pub lfsr_state: u32,
    pub last_sample: i16,
    pub slew_current: u16,
}

// What a tick looks at of the voice that modulates it.
#[derive(Clone, Copy)]
pub struct Target {
    pub last_sample: i16,
    pub phase: u64,
    pub cycle: u64,
}

// What the registers mean to a voice's ticks.
#[derive(Clone, Copy)]
pub struct Setting {
    pub volume: u8,
    pub panpot: u8,
    // Kept as it is: the field is public and takes every number; an enum would ask more of callers.
    pub modulation: u8,
    pub param_1: u16,
    pub param_2: u16,
    pub interpolate: bool,
    pub mask: u8,
    pub step: u64,
}

// A tick of an oscillator, with the value in Q8.8 ahead of the volume.
#[derive(Clone, Copy)]
pub struct Ticked {
    pub oscillator: Oscillator,
    pub q8: i16,
}

// What ticks have given to the two sides so far, and the last one's sample.
#[derive(Clone, Copy)]
pub struct Sides {
    pub sample: i16,
    pub left: i32,
    pub right: i32,
}

// What the ticks of an oscillator move.
#[derive(Clone, Copy)]
pub struct Sound {
    pub oscillator: Oscillator,
    pub sides: Sides,
}

// What the ticks of a queue move.
#[derive(Clone, Copy)]
pub struct QueueSound {
    pub fifo: Fifo,
    pub sides: Sides,
}
