// The numbers of the chip's two cores, each said once. A core's own are in crate `sizes`. The same numbers stand in
// specs/Sizes.antt for the definitions.
#![tactic(auto)]

use sizes::{NUM_CHANNELS, QUEUE_BUFFER, STEMS};

pub const NUM_CORES: usize = 2;

pub const LAST_CORE: usize = NUM_CORES - 1;

// Voice v is channel v % 8 of core v / 8.
pub const CHIP_VOICES: usize = NUM_CORES * NUM_CHANNELS;

// The queue buffer: core 0's entries, then core 1's.
pub const CHIP_QUEUES: usize = NUM_CORES * QUEUE_BUFFER;

// A frame's stems: core 0's, then core 1's.
pub const CHIP_STEMS: usize = NUM_CORES * STEMS;
