// The chip's arithmetic on plain numbers. Nothing here holds state, and every function takes every argument.
#![tactic(auto)]

mod mix;
mod noise;
mod pcm;
mod phase;
mod shape;
mod taps;
mod targets;

pub use mix::{
    apply_master_gain, gained, high_nibble, last_sample, low_nibble, pan, saturate_output,
    saturating_add, stream_gained, stream_last_sample, stream_volume_of, volume_of, wrapping_add,
};
pub use noise::{next_lfsr, noise_value};
pub use pcm::{is_ram_length, loops, pcm_address, pcm_is_over, pcm_next, pcm_phase_after};
pub use phase::{
    fraction, moved, pcm_phase_step, phase_of, phase_offset, phase_step_q26, sqv4_phase_step,
    stepped, wave_phase_step, whole,
};
pub use shape::{centred, ring, slew, slew_rate, slew_step, slewed, window};
pub use taps::{
    blend, blend_samples, raised, raised_sample, wave_after, wave_cycle, wave_index, wavetable_mask,
};
pub use targets::convert_to_absolute_channel_address;
