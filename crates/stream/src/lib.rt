// A stream voice: the check of its file, the cache of its decoded fragments, its accepted states and its tick.
#![tactic(auto)]

mod accepted;
mod cache;
mod file;
mod served;
mod tick;

use adpcm::{State, Variant};
pub use cache::clear;
pub use file::initialize_sqv4;

// What a voice knows of its file once it is taken.
#[derive(Clone, Copy)]
pub struct Info {
    pub version: u8,
    pub sample_count: usize,
    pub frame_samples: usize,
    pub frame_size: usize,
    pub loop_sample: usize,
}

// Everything of a cache but the decoded samples, with the fragment that each half holds. Those are lent, 128 of them: an even fragment's from 0 on, an odd one's
// from 64 on.
#[derive(Clone, Copy)]
pub struct StreamCache {
    // Kept as it is: a stored cache may be marked valid without a variant, which `accepts` refuses, and one that is not valid may keep one.
    pub valid: bool,
    pub variant: Option<Variant>,
    pub info: Info,
    // Kept as it is: with an array of the two halves a log of stream voices takes 1.007 times the instructions.
    pub even: Option<usize>,
    pub odd: Option<usize>,
    pub next_frame: usize,
    pub decoder: State,
}

// What the registers mean to a stream's ticks.
#[derive(Clone, Copy)]
pub struct Play {
    pub start: usize,
    pub end: usize,
    pub loop_addr: usize,
    pub loops: bool,
    pub step: u64,
    pub wants_v3: bool,
    pub interpolate: bool,
}

// A voice's parts that a stream's tick moves, with the value in Q8.8 ahead of the volume.
#[derive(Clone, Copy)]
pub struct Streamed {
    pub cache: StreamCache,
    pub phase: u64,
    pub active: bool,
    pub q8: i32,
}

// What a cache serves from a sample on: that sample's fragment, whose samples are `per` from `first` on, and the next one. Of
// the first `reach` samples the one after it is there too. `here` and `next` place them among the voice's 128.
#[derive(Clone, Copy)]
pub struct Window {
    pub first: usize,
    pub per: usize,
    pub reach: usize,
    pub here: usize,
    pub next: usize,
}
