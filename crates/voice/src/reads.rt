// Reads at a channel's offsets.
ghost use Rattle.std.specs.Prelude.{◌≡◌};
ghost use Rattle.num.specs.Bits.{byte_of};
ghost use Rattle.voice.specs.Reads.{streams_from, read_queue, read_sample_control, read_control, after_read};

use crate::Channel;
use version::SguVersion;

fn high_byte(x: usize) -> u8
    ensures { result ≡ byte_of 1 x }
{
    ((x >> 8) & 0xFF) as u8
}

fn low_byte(x: usize) -> u8
    ensures { result ≡ byte_of 0 x }
{
    (x & 0xFF) as u8
}

impl Channel {
    // Whether a byte of the RAM is one of this voice's stream.
    pub fn streams_from(self, address: u32) -> bool
        ensures { result ≡ streams_from self address }
    {
        let g = self.registers;
        let w = g.waveform_type;
        let p = self.pcm;
        if w.is_sqv4() {
            if address < p.start_addr {
                return false;
            }
            return address < p.end_addr;
        }
        false
    }

    fn read_queue(self, version: SguVersion, offset: u8) -> u8
        ensures { result ≡ read_queue version self offset }
    {
        let f = self.fifo;
        if version.has_3ws8pna() {
            if offset == 0x0E {
                return high_byte(f.count);
            }
            return low_byte(f.count);
        }
        0
    }

    fn read_sample_control(self, version: SguVersion) -> u8
        ensures { result ≡ read_sample_control version self }
    {
        let p = self.pcm;
        if version.has_sample_control() {
            return p.sample_control;
        }
        0
    }

    // The byte at an offset, as peeking shows it.
    pub fn read_control(self, version: SguVersion, offset: u8) -> u8
        ensures { result ≡ read_control version self offset }
    {
        let g = self.registers;
        let p = self.pcm;
        match offset {
            0x0E..=0x0F => self.read_queue(version, offset),
            0x10..=0x19 => p.read(offset - 0x10),
            0x1A => self.read_sample_control(version),
            _ => g.read(offset),
        }
    }

    // Reading 0x0A clears phase and cache.
    pub fn after_read(mut self, offset: u8) -> Channel
        ensures { result ≡ after_read self offset }
    {
        if offset == 0x0A {
            let mut o = self.oscillator;
            o.phase = 0;
            self.oscillator = o;
            return self.invalidate_sqv4();
        }
        self
    }
}
