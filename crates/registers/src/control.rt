// The control registers at their offsets.
ghost use Rattle.std.specs.Prelude.{◌≡◌, ◌<◌};
ghost use Rattle.registers.specs.Control.{default_registers, set_waveform, target_channel, write_registers};
ghost use Rattle.registers.specs.Control.{modulation_byte, read_registers, accepts_registers};

use crate::bytes::{byte, with_byte_16};
use crate::{ModulationType, Registers, WaveformType};
use version::SguVersion;

// A fresh voice's control registers.
impl Default for Registers {
    ghost is_default = { λ registers. registers ≡ default_registers };

    fn default() -> Registers {
        Registers {
            frequency: 0,
            waveform_type: WaveformType::Wavetable,
            volume: 0,
            panpot: 0xFF,
            modulation_type: ModulationType::None,
            modulation_target: 0,
            modulation_targeting_mode: 0,
            modulation_param_1: 0,
            modulation_param_2: 0,
        }
    }
}

impl Registers {
    // The registers with another waveform.
    pub fn with_waveform(self, waveform_type: WaveformType) -> Registers
        ensures { result ≡ set_waveform self waveform_type }
    {
        Registers {
            waveform_type,
            ..self
        }
    }

    // The channel that modulates this one.
    pub fn target_channel(self, ch: usize) -> usize
        ensures { (result ≡ target_channel self ch) × (result < 8) }
    {
        tone::convert_to_absolute_channel_address(
            (ch & 7) as u8,
            self.modulation_targeting_mode,
            self.modulation_target,
        )
    }

    // The number registers; the waveform, the phase reset and the queue are the channel's.
    pub fn write(mut self, offset: u8, value: u8) -> Registers
        ensures { result ≡ write_registers self offset value }
    {
        match offset {
            0..=1 => self.frequency = with_byte_16(self.frequency, 1 - offset, value),
            3 => self.volume = value,
            4 => self.panpot = value,
            5 => {
                self.modulation_type = ModulationType::from(value >> 3);
                self.modulation_target = value & 7;
            }
            6..=7 => self.modulation_param_1 = with_byte_16(
                self.modulation_param_1,
                7 - offset,
                value,
            ),
            8..=9 => self.modulation_param_2 = with_byte_16(
                self.modulation_param_2,
                9 - offset,
                value,
            ),
            0x0B => self.modulation_targeting_mode = value & 1,
            _ => {}
        }
        self
    }

    // Modulation type and target as they are read back.
    pub fn modulation_byte(self) -> u8
        ensures { result ≡ modulation_byte self }
    {
        (u8::from(self.modulation_type) << 3) | (self.modulation_target & 7)
    }

    // The byte that an offset reads.
    pub fn read(self, offset: u8) -> u8
        ensures { result ≡ read_registers self offset }
    {
        match offset {
            0..=1 => byte(self.frequency as u32, 1 - offset),
            2 => u8::from(self.waveform_type),
            3 => self.volume,
            4 => self.panpot,
            5 => self.modulation_byte(),
            6..=7 => byte(self.modulation_param_1 as u32, 7 - offset),
            8..=9 => byte(self.modulation_param_2 as u32, 9 - offset),
            0x0B => self.modulation_targeting_mode & 1,
            _ => 0,
        }
    }

    // Whether the registers are those of an accepted state.
    #[tactic(auto, unfolding(crate::specs::Control::accepts_registers))]
    pub fn accepts(self, version: SguVersion) -> bool
        ensures { result ≡ accepts_registers self version }
    {
        (self.modulation_target <= 7)
            & (self.modulation_targeting_mode <= 1)
            & ((self.waveform_type != WaveformType::FifoDac) | version.has_3ws8pna())
    }
}
