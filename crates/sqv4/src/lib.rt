// SQV4 streams: the check of a file, a fragment's samples, and the whole of a file.
#![tactic(auto)]

ghost use Rattle.std.specs.Prelude.{◌≡◌};
ghost use Rattle.sqv4.specs.Files.{told, error_number, fault_number, unknown_variant};

mod check;
mod fragment;
mod whole;

use adpcm::{UnknownVariant, Variant};
pub use check::{MAGIC, frame_samples, frame_size, inspect, stream_bytes};
pub use fragment::{decode_fragment, decode_legacy_fragment};
pub use whole::decode;

// What a file's header says of it.
#[derive(Clone, Copy)]
pub struct Header {
    pub version: u8,
    pub variant: Variant,
    pub channels: u8,
    pub sample_rate: u32,
    pub samples_per_channel: usize,
    // The samples of a full fragment of one channel.
    pub frame_samples: usize,
    // The fragments of one channel.
    pub frame_count: usize,
    pub frame_size: usize,
}

// The first thing that is wrong with a file.
#[derive(Clone, Copy, Debug, PartialEq, Eq)]
pub enum InspectError {
    TruncatedHeader,
    InvalidMagic,
    UnsupportedVersion(u8),
    InvalidVariant(u8),
    InvalidChannels(u8),
    InvalidReservedByte(u8),
    ZeroSampleRate,
    InvalidFileLength { expected: usize, actual: usize },
    InvalidStepIndex(u8),
    NonZeroPadding,
}

// What is wrong with a fragment.
#[derive(Clone, Copy, Debug, PartialEq, Eq)]
pub enum Fault {
    Step(u8),
    Padding,
}

// A fault as the check's answer, by the same number.
impl From<Fault> for InspectError {
    ghost from_gives = { λ fault e. (e ≡ told fault) × (error_number e ≡ fault_number fault) };

    fn from(fault: Fault) -> InspectError {
        match fault {
            Fault::Step(index) => InspectError::InvalidStepIndex(index),
            Fault::Padding => InspectError::NonZeroPadding,
        }
    }
}

impl From<UnknownVariant> for InspectError {
    ghost from_gives = { λ unknown e. e ≡ unknown_variant unknown };

    fn from(unknown: UnknownVariant) -> InspectError {
        InspectError::InvalidVariant(unknown.byte)
    }
}
