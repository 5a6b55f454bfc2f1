// Waveforms and modulations, and their numbers.
ghost use Rattle.std.specs.Prelude.{◌≡◌};
ghost use Rattle.registers.specs.Waveforms.{waveform_from, waveform_number, is_sqv4, under as waveform_under, modulation_from};
ghost use Rattle.registers.specs.Waveforms.{modulation_number, has_target, is_phase};

use crate::{ModulationType, WaveformType};
use version::SguVersion;

// The waveform of a register's number.
impl From<u8> for WaveformType {
    ghost from_gives = { λ value waveform. waveform ≡ waveform_from value };

    fn from(value: u8) -> WaveformType {
        match value {
            1 => WaveformType::Pcm,
            2 => WaveformType::Noise,
            3 => WaveformType::DmaPcm,
            4 => WaveformType::Sqv4,
            5 => WaveformType::FifoDac,
            _ => WaveformType::Wavetable,
        }
    }
}

// The number of a waveform.
impl From<WaveformType> for u8 {
    ghost from_gives = { λ waveform number. number ≡ waveform_number waveform };

    fn from(waveform: WaveformType) -> u8 {
        waveform as u8
    }
}

impl WaveformType {
    // Whether the voice plays a stream.
    pub fn is_sqv4(self) -> bool
        ensures { result ≡ is_sqv4 self }
    {
        self == WaveformType::Sqv4
    }

    // The waveform under a version: there is no FIFO before V2.1.
    pub fn under(self, version: SguVersion) -> WaveformType
        ensures { result ≡ waveform_under self version }
    {
        if version.has_3ws8pna() {
            return self;
        }
        match self {
            WaveformType::FifoDac => WaveformType::Wavetable,
            _ => self,
        }
    }
}

// The modulation of a register's number.
impl From<u8> for ModulationType {
    ghost from_gives = { λ value modulation. modulation ≡ modulation_from value };

    fn from(value: u8) -> ModulationType {
        match value {
            1 => ModulationType::Phase,
            2 => ModulationType::Ring,
            3 => ModulationType::HardSync,
            4 => ModulationType::Window,
            5 => ModulationType::SlewRate,
            6 => ModulationType::SlewStep,
            _ => ModulationType::None,
        }
    }
}

// The number of a modulation.
impl From<ModulationType> for u8 {
    ghost from_gives = { λ modulation number. number ≡ modulation_number modulation };

    fn from(modulation: ModulationType) -> u8 {
        modulation as u8
    }
}

impl ModulationType {
    // Whether a wavetable voice looks at its target.
    pub fn has_target(self) -> bool
        ensures { result ≡ has_target self }
    {
        matches!(
            self,
            ModulationType::Phase
                | ModulationType::Ring
                | ModulationType::HardSync
                | ModulationType::Window
        )
    }

    // Whether the modulation is that of the phase.
    pub fn is_phase(self) -> bool
        ensures { result ≡ is_phase self }
    {
        self == ModulationType::Phase
    }
}
