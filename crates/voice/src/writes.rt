// Writes at a channel's offsets.
ghost use Rattle.std.specs.Prelude.{◌≡◌, nat_le};
ghost use Rattle.voice.specs.Kinds.{sample_of};
ghost use Rattle.voice.specs.Writes.{empties_cache, waveform_written, restarted, latch_written, sample_written, sample_entries};
ghost use Rattle.voice.specs.Writes.{sample_control_written, write_control, write_control_entries, write_pcm_reg};

use crate::Channel;
use registers::WaveformType;
use version::SguVersion;

// A sample, its high byte first.
fn sample_of(high: u8, low: u8) -> i16
    ensures { result ≡ sample_of high low }
{
    num::signed16(((high as u16) << 8) | (low as u16))
}

impl Channel {
    fn write_waveform(mut self, version: SguVersion, value: u8) -> Channel
        ensures { result ≡ waveform_written version self value }
    {
        let g = self.registers;
        let w = WaveformType::from(value);
        let h = g.with_waveform(w.under(version));
        self.registers = h;
        self.invalidate_sqv4()
    }

    // Phase, slew, cache, noise and queue begin anew.
    fn restart(mut self) -> Channel
        ensures { result ≡ restarted self }
    {
        let mut o = self.oscillator;
        o.phase = 0;
        o.slew_current = 0;
        o.lfsr_state = 0x12D4_803C;
        self.oscillator = o;
        self.reset_fifo().invalidate_sqv4()
    }

    fn write_latch(mut self, version: SguVersion, value: u8) -> Channel
        ensures { result ≡ latch_written version self value }
    {
        let mut f = self.fifo;
        if version.has_3ws8pna() {
            f.latch = value;
            self.fifo = f;
        }
        self
    }

    // The low byte pushes the sample.
    fn write_sample(mut self, version: SguVersion, queue: &mut [i16], value: u8) -> Channel
        ensures { (result ≡ sample_written version self) × (queue.new ≡ sample_entries version self queue.old value) }
    {
        let f = self.fifo;
        if version.has_3ws8pna() {
            let h = f.push(queue, sample_of(f.latch, value));
            self.fifo = h;
        }
        self
    }

    fn write_sample_control(mut self, version: SguVersion, value: u8) -> Channel
        ensures { result ≡ sample_control_written version self value }
    {
        let mut p = self.pcm;
        if version.has_sample_control() {
            p.sample_control = value & 7;
            self.pcm = p;
        }
        self
    }

    // A control register written; its own queue entries are lent.
    pub fn write_control(
        mut self,
        version: SguVersion,
        queue: &mut [i16],
        offset: u8,
        value: u8,
    ) -> Channel
        ensures { (result ≡ write_control version self offset value)
            × (queue.new ≡ write_control_entries version self queue.old offset value) }
    {
        match offset {
            2 => self.write_waveform(version, value),
            0x0A => self.restart(),
            0x0C => self.write_latch(version, value),
            0x0D => self.write_sample(version, queue, value),
            0x1A => self.write_sample_control(version, value),
            _ => {
                let g = self.registers;
                let h = g.write(offset, value);
                self.registers = h;
                self
            }
        }
    }

    // Whether a write at this offset empties the cache.
    pub fn pcm_write_invalidates(offset: u8) -> bool
        ensures { result ≡ nat_le offset 9 }
    {
        offset <= 9
    }

    // Whether a write to this offset empties the stream cache.
    pub fn control_write_invalidates(offset: u8) -> bool
        ensures { result ≡ empties_cache offset }
    {
        if offset == 2 {
            return true;
        }
        offset == 0x0A
    }

    // A PCM register written.
    pub fn write_pcm_reg(mut self, offset: u8, value: u8) -> Channel
        ensures { result ≡ write_pcm_reg self offset value }
    {
        let p = self.pcm;
        let q = p.write(offset, value);
        self.pcm = q;
        if Channel::pcm_write_invalidates(offset) {
            return self.invalidate_sqv4();
        }
        self
    }
}
