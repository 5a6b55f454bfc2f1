// A PCM voice's places in the RAM, and its phase after a tick.
ghost use Rattle.std.specs.Prelude.{◌≡◌, ◌-◌, ◌*◌, ◌^◌, ◌<◌};
ghost use Rattle.tone.specs.Pcm.{is_ram_length, pcm_address, pcm_next, pcm_phase_after, pcm_is_over};
ghost use Rattle.tone.specs.Pcm.{loops as loops_in};

use sizes::RAM_MOST;

// A power of two from 256 to 16,777,216.
pub fn is_ram_length(length: usize) -> bool
    ensures { result ≡ is_ram_length length }
{
    if length < 256 {
        return false;
    }
    if RAM_MOST < length {
        return false;
    }
    length.is_power_of_two()
}

// Masks are the length less one.
fn mask_of(length: usize) -> usize
    ensures { result ≡ length - 1 }
{
    length.saturating_sub(1)
}

// The RAM's byte at a position after the start.
pub fn pcm_address(position: u64, start: u32, length: usize) -> usize
    ensures result { result ≡ pcm_address position start length }
    ensures upper_bound { 0 < length → result < length }
{
    (position.wrapping_add(start as u64) as usize) & mask_of(length)
}

// Whether a PCM control byte asks for a loop.
pub fn loops(control: u8) -> bool
    ensures { result ≡ loops_in control }
{
    (control >> 1) & 1 == 1
}

// The second tap: after the last sample the loop's start, or the last sample itself.
pub fn pcm_next(address: usize, end: u32, loop_addr: u32, control: u8, length: usize) -> usize
    ensures result { result ≡ pcm_next address end loop_addr control length }
    ensures upper_bound { address < length → result < length }
{
    let mask = mask_of(length);
    let next = address.wrapping_add(1);
    if next < end as usize {
        return next & mask;
    }
    if loops(control) {
        return (loop_addr as usize) & mask;
    }
    address
}

// The phase of an address, counted from the start; 0 before it.
fn phase_from(start: u32, address: u32) -> u64
    ensures { result ≡ (address - start) * 2 ^ 29 }
{
    (address.saturating_sub(start) as u64) << 29
}

// The phase after a tick whose sample came from an address: from the end on it jumps to the loop, or stays at the end.
pub fn pcm_phase_after(
    phase: u64,
    address: usize,
    start: u32,
    end: u32,
    loop_addr: u32,
    control: u8,
    step: u64,
) -> u64
    ensures { result ≡ pcm_phase_after phase address start end loop_addr control step }
{
    if address < end as usize {
        return phase.wrapping_add(step);
    }
    if loops(control) {
        return phase_from(start, loop_addr);
    }
    phase_from(start, end)
}

// Whether the sample at an address is silent: from the end on, without a loop.
#[tactic(auto, unfolding(crate::specs::Pcm::pcm_is_over))]
pub fn pcm_is_over(address: usize, end: u32, control: u8) -> bool
    ensures { result ≡ pcm_is_over address end control }
{
    (end as usize <= address) & !loops(control)
}
