// Phases: samples with 29 fraction bits, in 64 bits that wrap.
ghost use Rattle.std.specs.Prelude.{◌≡◌, ◌^◌, ◌<◌};
ghost use Rattle.tone.specs.Phase.{phase_step, wave_phase_step, pcm_phase_step, sqv4_phase_step, phase_of, phase_offset};
ghost use Rattle.tone.specs.Phase.{whole as whole_of, fraction as fraction_of, stepped as stepped_by, moved as moved_by};

// The phase step of a tick, in samples with 26 fraction bits.
pub fn phase_step_q26(frequency: u16) -> u64
    ensures { result ≡ phase_step frequency }
{
    (frequency as u64) * 89478 + ((frequency >> 1) as u64)
}

// A wavetable's step of phase at a frequency.
pub fn wave_phase_step(frequency: u16) -> u64
    ensures { result ≡ wave_phase_step frequency }
{
    phase_step_q26(frequency) << 3
}

// A PCM voice's step of phase at a frequency.
pub fn pcm_phase_step(frequency: u16) -> u64
    ensures { result ≡ pcm_phase_step frequency }
{
    phase_step_q26(frequency.min(48000))
}

// A stream's step of phase at a frequency.
pub fn sqv4_phase_step(frequency: u16) -> u64
    ensures { result ≡ sqv4_phase_step frequency }
{
    phase_step_q26(frequency.min(12000))
}

// The whole samples of a phase, and the fraction after them in 1/256.
pub fn whole(phase: u64) -> u64
    ensures result { result ≡ whole_of phase }
    ensures upper_bound { result < 2 ^ 35 }
{
    phase >> 29
}

// The eight bits below the whole of a phase.
pub fn fraction(phase: u64) -> u8
    ensures { result ≡ fraction_of phase }
{
    ((phase >> 21) & 255) as u8
}

// A phase one step on, in 64 bits.
pub fn stepped(phase: u64, step: u64) -> u64
    ensures { result ≡ stepped_by phase step }
{
    phase.wrapping_add(step)
}

// The phase of a whole sample.
pub fn phase_of(sample: u64) -> u64
    ensures { result ≡ phase_of sample }
{
    sample << 29
}

// The offset of phase modulation, rounded down.
pub fn phase_offset(param_1: u16, modulator: i16) -> i32
    ensures { result ≡ phase_offset param_1 modulator }
{
    ((param_1 as i32) * (modulator as i32)) >> 12
}

// A position moved by a signed offset, modulo 2^64.
pub fn moved(position: u64, by: i32) -> u64
    ensures { result ≡ moved_by position by }
{
    let raised = ((by as i64) + 2147483648) as u64;
    position.wrapping_add(raised).wrapping_sub(2147483648)
}
