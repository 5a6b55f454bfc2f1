// A stream writer: samples made into a mono SQV4 file of version 3, with one volume and one step index for all fragments.
#![tactic(auto)]

mod choice;
mod fragments;
mod packing;
mod streams;

use adpcm::Variant;
pub use streams::{answer_for, number, write_stream};

// What a file is written with: one volume and one step index for all fragments.
#[derive(Clone, Copy)]
pub struct Terms {
    pub variant: Variant,
    pub rate: u32,
    pub volume: u8,
    pub index: u8,
}

// Why there is no file.
#[derive(Clone, Copy, Debug, PartialEq, Eq)]
pub enum StreamError {
    // A rate or a volume of zero, a step index above 88, or too many samples.
    OutOfTerms,
    // A buffer shorter than the file.
    OutputBuffer,
}

pub(crate) const VERSION: u8 = 3;

pub(crate) const HEADER_SIZE: usize = 16;

pub(crate) const FRAGMENT_SAMPLES: usize = 63;

pub(crate) const MAX_STEP_INDEX: u8 = 88;

pub(crate) const MAX_SAMPLES: usize = 4294967295;
