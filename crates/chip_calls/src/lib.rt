// Each call of the list as a function: its body is the chip's call, its promise is the line of `code` for it. So a public call
// whose contract named another definition would fail here, and the theorem of `resume` speaks of functions.
#![tactic(auto, unfolding(crate::specs::Code::code))]

mod sound;
mod state;
mod text;

pub use sound::{clock, clock_mixed, clock_mixed_into, clock_mixed_into_i32, generate_sample};
pub use state::{
    interpolates, peek_register, read_channel_control, read_channel_pcm_reg,
    read_channel_wavetable, read_pcm_ram, read_register, reset, reset_channel, set_version,
    wavetable_length, write_channel_control, write_channel_pcm_reg, write_channel_wavetable,
    write_pcm_ram, write_register,
};
pub use text::{read_head, read_stored_voice, read_voice, write_head, write_voice};
