// The PCM registers at their offsets. The highest byte of an address comes first.
ghost use Rattle.std.specs.Prelude.{◌≡◌};
ghost use Rattle.registers.specs.Pcm.{default_pcm, write_pcm, read_pcm, accepts_pcm};

use crate::PcmRegisters;
use crate::bytes::{byte, with_byte};

// A fresh voice's PCM registers.
impl Default for PcmRegisters {
    ghost is_default = { λ registers. registers ≡ default_pcm };

    fn default() -> PcmRegisters {
        PcmRegisters {
            start_addr: 0,
            end_addr: 0,
            loop_addr: 0,
            control: 0,
            sample_control: 0,
            active: true,
        }
    }
}

impl PcmRegisters {
    // The registers with a byte written at an offset.
    pub fn write(mut self, offset: u8, value: u8) -> PcmRegisters
        ensures { result ≡ write_pcm self offset value }
    {
        match offset {
            0..=2 => self.start_addr = with_byte(self.start_addr, 2 - offset, value),
            3..=5 => self.end_addr = with_byte(self.end_addr, 5 - offset, value),
            6..=8 => self.loop_addr = with_byte(self.loop_addr, 8 - offset, value),
            9 => {
                self.control = value;
                self.active = value & 1 == 1;
            }
            _ => {}
        }
        self
    }

    // The byte that an offset reads.
    pub fn read(self, offset: u8) -> u8
        ensures { result ≡ read_pcm self offset }
    {
        match offset {
            0..=2 => byte(self.start_addr, 2 - offset),
            3..=5 => byte(self.end_addr, 5 - offset),
            6..=8 => byte(self.loop_addr, 8 - offset),
            9 => self.control,
            _ => 0,
        }
    }

    // Whether the registers are those of an accepted state.
    #[tactic(auto, unfolding(crate::specs::Pcm::accepts_pcm))]
    pub fn accepts(self) -> bool
        ensures { result ≡ accepts_pcm self }
    {
        (self.sample_control <= 7)
            & (self.start_addr < 0x100_0000)
            & (self.end_addr < 0x100_0000)
            & (self.loop_addr < 0x100_0000)
    }
}
