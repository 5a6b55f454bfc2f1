// The RAM: a byte written, a byte read. An address past its end is none.
ghost use Rattle.std.specs.Prelude.{◌≡◌, length};
ghost use Rattle.s3w2.specs.Ram.{write_pcm_ram_called, write_pcm_ram_ram, read_pcm_ram_answer};

use crate::{Answer, Called, Chip, Returned};

impl Chip {
    // A stream that has the byte begins anew, on either core.
    pub fn write_pcm_ram(self, ram: &mut [u8], address: u32, value: u8) -> Called
        ensures called { result ≡ write_pcm_ram_called self (length ram.old) address }
        ensures ram { ram.new ≡ write_pcm_ram_ram self ram.old address value }
    {
        if let Err(refusal) = self.refusal_with_ram(ram.len()) {
            return self.answers(Err(refusal));
        }
        let at = address as usize;
        if ram.len() <= at {
            return self.answers(Ok(Returned::Done));
        }
        ram[at] = value;
        let first = self.core_at(0);
        let second = self.core_at(1);
        let chip = self.with_cores(
            first.after_ram_write(address),
            second.after_ram_write(address),
        );
        chip.answers(Ok(Returned::Done))
    }

    // Reads a byte of the RAM.
    pub fn read_pcm_ram(self, ram: &[u8], address: u32) -> Answer
        ensures { result ≡ read_pcm_ram_answer self ram.now address }
    {
        self.refusal_with_ram(ram.len())?;
        Ok(Returned::Byte(num::byte_at(ram, address as usize)))
    }
}
