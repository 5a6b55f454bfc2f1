// WAV files: the 44 bytes ahead of the samples, and samples as bytes.
#![tactic(auto)]

mod header;
mod samples;

pub use header::{HEADER, put_header};
pub use samples::{put_channel, put_samples, put_sides};
