// The chip's numbers, each said once, as s3w2.rs names them where it has a name for them. The same numbers stand in
// specs/Sizes.antt for the definitions.
#![tactic(auto)]

pub const NUM_CHANNELS: usize = 8;

pub const LAST_CHANNEL: usize = NUM_CHANNELS - 1;

pub const WAVETABLE_SIZE: usize = 256;

// The wavetables of all channels; the registers from 0 on.
pub const WAVETABLES_SIZE: usize = NUM_CHANNELS * WAVETABLE_SIZE;

// A channel's block of registers behind the wavetables.
pub const BLOCK_SIZE: usize = 32;

pub const REGISTERS_END: usize = WAVETABLES_SIZE + NUM_CHANNELS * BLOCK_SIZE;

pub const FIFO_CAPACITY: usize = 2048;

pub const QUEUE_BUFFER: usize = NUM_CHANNELS * FIFO_CAPACITY;

// Ticks of a frame, and its stems: a left and a right one for each channel.
pub const TICKS: usize = 4;

pub const STEMS: usize = 2 * NUM_CHANNELS;

// RAM lengths are the powers of two from one to the other.
pub const RAM_LEAST: usize = 256;

pub const RAM_MOST: usize = 16777216;

// The number of V3.1, the last version.
pub const LAST_VERSION: u32 = 4;

pub const PCM_RAM_SIZE: usize = 1048576;

pub const SAMPLE_RATE: usize = 48000;

pub const SOUND_CLOCK: u32 = 192000;

pub const SGU_CLOCK_DIVIDER: u32 = 250;

pub const PHASE_FRAC_BITS: u32 = 29;

pub const PHASE_ONE_CYCLE: u64 = 137438953472;

pub const PCM_FREQ_MAX: u16 = 48000;

pub const SQV4_FREQ_MAX: u16 = 12000;
