// One channel of a core written and read. A channel above 7 reads 0 and writes nothing; a core above 1 reads 0, or no, and writes
// nothing.
// Kept as it is: the calls begin alike, here and in `addressed`; one function of them all would take the core's own call as a closure,
// and ask of it by clauses what each of these says of its own.
ghost use Rattle.std.specs.Prelude.{◌≡◌, length};
ghost use Rattle.s3w2.specs.Channels.{write_channel_wavetable_called, read_channel_wavetable_answer, write_channel_control_called};
ghost use Rattle.s3w2.specs.Channels.{write_channel_control_buffer, read_channel_control_called, write_channel_pcm_reg_called};
ghost use Rattle.s3w2.specs.Channels.{read_channel_pcm_reg_answer, wavetable_length_answer, interpolates_answer};

use crate::{Answer, Called, Chip, Returned};
use cores::LAST_CORE;
use sizes::{LAST_CHANNEL, QUEUE_BUFFER};

impl Chip {
    // Writes a byte of a channel's wavetable.
    pub fn write_channel_wavetable(self, core: usize, ch: usize, offset: u8, value: u8) -> Called
        ensures { result ≡ write_channel_wavetable_called self core ch offset value }
    {
        if let Err(refusal) = self.refusal() {
            return self.answers(Err(refusal));
        }
        if LAST_CHANNEL < ch {
            return self.answers(Ok(Returned::Done));
        }
        if LAST_CORE < core {
            return self.answers(Ok(Returned::Done));
        }
        let voices = self.core_at(core);
        let at = ch * 256 + (offset as usize);
        self.with_core(core, voices.write_wavetable(at, value), Ok(Returned::Done))
    }

    // Reads a byte of a channel's wavetable.
    pub fn read_channel_wavetable(self, core: usize, ch: usize, offset: u8) -> Answer
        ensures { result ≡ read_channel_wavetable_answer self core ch offset }
    {
        self.refusal()?;
        if LAST_CHANNEL < ch {
            return Ok(Returned::Byte(0));
        }
        if LAST_CORE < core {
            return Ok(Returned::Byte(0));
        }
        let voices = self.core_at(core);
        Ok(Returned::Byte(voices.read_wavetable(ch * 256 + (offset as usize))))
    }

    // Writes a control register of a channel.
    pub fn write_channel_control(
        self,
        queues: &mut [i16],
        core: usize,
        ch: usize,
        offset: u8,
        value: u8,
    ) -> Called
        ensures called { result ≡ write_channel_control_called self (length queues.old) core ch offset value }
        ensures queues { queues.new ≡ write_channel_control_buffer self queues.old core ch offset value }
    {
        if let Err(refusal) = self.refusal_with_queues(queues.len()) {
            return self.answers(Err(refusal));
        }
        if LAST_CORE < core {
            return self.answers(Ok(Returned::Done));
        }
        let version = self.version;
        let voices = self.core_at(core);
        let from = core * QUEUE_BUFFER;
        let to = from + QUEUE_BUFFER;
        let next = voices.write_control(version, &mut queues[from..to], ch, offset, value);
        self.with_core(core, next, Ok(Returned::Done))
    }

    // Reads a control register of a channel; 0x0A clears its phase and stream cache.
    pub fn read_channel_control(self, core: usize, ch: usize, offset: u8) -> Called
        ensures { result ≡ read_channel_control_called self core ch offset }
    {
        if let Err(refusal) = self.refusal() {
            return self.answers(Err(refusal));
        }
        if LAST_CORE < core {
            return self.answers(Ok(Returned::Byte(0)));
        }
        let version = self.version;
        let voices = self.core_at(core);
        let byte = voices.read_control(version, ch, offset);
        self.with_core(
            core,
            voices.after_read(ch, offset),
            Ok(Returned::Byte(byte)),
        )
    }

    // Writes a PCM register of a channel.
    pub fn write_channel_pcm_reg(self, core: usize, ch: usize, offset: u8, value: u8) -> Called
        ensures { result ≡ write_channel_pcm_reg_called self core ch offset value }
    {
        if let Err(refusal) = self.refusal() {
            return self.answers(Err(refusal));
        }
        if LAST_CORE < core {
            return self.answers(Ok(Returned::Done));
        }
        let voices = self.core_at(core);
        self.with_core(
            core,
            voices.write_pcm_reg(ch, offset, value),
            Ok(Returned::Done),
        )
    }

    // Reads a PCM register of a channel.
    pub fn read_channel_pcm_reg(self, core: usize, ch: usize, offset: u8) -> Answer
        ensures { result ≡ read_channel_pcm_reg_answer self core ch offset }
    {
        self.refusal()?;
        if LAST_CORE < core {
            return Ok(Returned::Byte(0));
        }
        let voices = self.core_at(core);
        Ok(Returned::Byte(voices.read_pcm_reg(ch, offset)))
    }

    // The samples of a wavetable's cycle.
    pub fn wavetable_length(self, core: usize, ch: usize) -> Answer
        ensures { result ≡ wavetable_length_answer self core ch }
    {
        self.refusal()?;
        if LAST_CORE < core {
            return Ok(Returned::Count(0));
        }
        let version = self.version;
        let voices = self.core_at(core);
        Ok(Returned::Count(voices.wavetable_length(version, ch)))
    }

    // Whether a channel blends neighbouring samples.
    pub fn interpolates(self, core: usize, ch: usize) -> Answer
        ensures { result ≡ interpolates_answer self core ch }
    {
        self.refusal()?;
        if LAST_CORE < core {
            return Ok(Returned::Flag(false));
        }
        let version = self.version;
        let voices = self.core_at(core);
        Ok(Returned::Flag(voices.interpolates(version, ch)))
    }
}
