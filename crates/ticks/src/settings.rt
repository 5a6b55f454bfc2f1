// A fresh oscillator, what another voice sees of one, and what the registers mean to a tick.
ghost use Rattle.std.specs.Prelude.{◌≡◌};
ghost use Rattle.ticks.specs.Oscillators.{default_oscillator, accepts_oscillator, no_target, target_from};
ghost use Rattle.ticks.specs.Settings.{step_of, setting_of};

use crate::{Oscillator, Setting, Target};
use registers::{Registers, WaveformType};
use version::SguVersion;

// What stands for a target where there is none.
impl Default for Target {
    ghost is_default = { λ target. target ≡ no_target };

    fn default() -> Target {
        Target {
            last_sample: 0,
            phase: 0,
            cycle: 0,
        }
    }
}

// A fresh voice's oscillator.
impl Default for Oscillator {
    ghost is_default = { λ oscillator. oscillator ≡ default_oscillator };

    fn default() -> Oscillator {
        Oscillator {
            phase: 0,
            old_phase: 0,
            lfsr_state: 0x12D4_803C,
            last_sample: 0,
            slew_current: 0,
        }
    }
}

impl Oscillator {
    // Whether the oscillator is that of an accepted state.
    #[tactic(auto, unfolding(crate::specs::Oscillators::accepts_oscillator))]
    pub fn accepts(self) -> bool
        ensures { result ≡ accepts_oscillator self }
    {
        (self.slew_current <= 65280) & (self.old_phase < 0x8_0000_0000)
    }

    // What a voice that is modulated by this one looks at.
    pub fn target(self, version: SguVersion, sample_control: u8) -> Target
        ensures { result ≡ target_from self version sample_control }
    {
        Target {
            last_sample: self.last_sample,
            phase: self.phase,
            cycle: tone::wave_cycle(version.wavetable_mask(sample_control)),
        }
    }
}

// The phase step of a waveform.
// Kept as it is: with one arm for wavetables and noise a log of noise voices takes 1.09 times the instructions, of wavetables 1.05 times.
fn step_of(waveform: WaveformType, frequency: u16) -> u64
    ensures { result ≡ step_of waveform frequency }
{
    match waveform {
        WaveformType::Wavetable => tone::wave_phase_step(frequency),
        WaveformType::Pcm => tone::pcm_phase_step(frequency),
        WaveformType::Noise => tone::wave_phase_step(frequency),
        WaveformType::Sqv4 => tone::sqv4_phase_step(frequency),
        WaveformType::DmaPcm | WaveformType::FifoDac => 0,
    }
}

impl Setting {
    // What a voice's ticks take from its registers.
    pub fn of(g: Registers, sample_control: u8, version: SguVersion) -> Setting
        ensures { result ≡ setting_of g sample_control version }
    {
        Setting {
            volume: g.volume,
            panpot: g.panpot,
            modulation: u8::from(g.modulation_type),
            param_1: g.modulation_param_1,
            param_2: g.modulation_param_2,
            interpolate: version.interpolates(sample_control),
            mask: version.wavetable_mask(sample_control),
            step: step_of(g.waveform_type, g.frequency),
        }
    }
}
