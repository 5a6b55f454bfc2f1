// Registers of a core by address: 0 to 0x7FF are wavetables, 0x800 to 0x8FF eight blocks of 32; above that reads give 0 and writes do
// nothing, as on a core above 1.
ghost use Rattle.std.specs.Prelude.{◌≡◌, length};
ghost use Rattle.s3w2.specs.Registers.{write_register_called, write_register_buffer, read_register_called, peek_register_answer};

use crate::{Answer, Called, Chip, Returned};
use cores::LAST_CORE;
use sizes::QUEUE_BUFFER;

impl Chip {
    // Writes a register by its address.
    pub fn write_register(self, queues: &mut [i16], core: usize, address: u32, value: u8) -> Called
        ensures called { result ≡ write_register_called self (length queues.old) core address value }
        ensures queues { queues.new ≡ write_register_buffer self queues.old core address value }
    {
        if let Err(refusal) = self.refusal_with_queues(queues.len()) {
            return self.answers(Err(refusal));
        }
        if LAST_CORE < core {
            return self.answers(Ok(Returned::Done));
        }
        let version = self.version;
        let voices = self.core_at(core);
        let from = core * QUEUE_BUFFER;
        let to = from + QUEUE_BUFFER;
        let next = voices.write_register(version, &mut queues[from..to], address, value);
        self.with_core(core, next, Ok(Returned::Done))
    }

    // Reads a register by its address; offset 0x0A of a voice clears its phase and stream cache.
    pub fn read_register(self, core: usize, address: u32) -> Called
        ensures { result ≡ read_register_called self core address }
    {
        if let Err(refusal) = self.refusal() {
            return self.answers(Err(refusal));
        }
        if LAST_CORE < core {
            return self.answers(Ok(Returned::Byte(0)));
        }
        let version = self.version;
        let voices = self.core_at(core);
        let byte = voices.peek_register(version, address);
        self.with_core(
            core,
            voices.after_read_register(address),
            Ok(Returned::Byte(byte)),
        )
    }

    // What reading would give; nothing changes.
    pub fn peek_register(self, core: usize, address: u32) -> Answer
        ensures { result ≡ peek_register_answer self core address }
    {
        self.refusal()?;
        if LAST_CORE < core {
            return Ok(Returned::Byte(0));
        }
        let version = self.version;
        let voices = self.core_at(core);
        Ok(Returned::Byte(voices.peek_register(version, address)))
    }
}
