// Reads at the registers' addresses.
ghost use Rattle.std.specs.Prelude.{◌≡◌};
ghost use Rattle.voices.specs.Reads.{read_channel_control, read_channel_pcm_reg, after_read_channel, read_wavetable, peek_register};
ghost use Rattle.voices.specs.Reads.{seen_at, read_empties};
ghost use Rattle.voices.specs.Reads.{after_read_register, wavetable_length, interpolates_at};

use crate::Core;
use crate::addresses::{channel_of, offset_of};
use sizes::{NUM_CHANNELS, WAVETABLES_SIZE};
use version::SguVersion;
use voice::Channel;

// What a register reads, by its address: `c` is the channel whose block the address lies in.
pub fn seen(c: Channel, version: SguVersion, wavetables: &[u8; WAVETABLES_SIZE], address: u32) -> u8
    ensures { result ≡ seen_at version c wavetables.now address }
{
    if address < 0x800 {
        return wavetables[address as usize];
    }
    if address < 0x900 {
        return c.read_control(version, offset_of(address));
    }
    0
}

// Whether reading a register empties a stream's cache.
pub fn read_empties(address: u32) -> bool
    ensures { result ≡ read_empties address }
{
    if address < 0x800 {
        return false;
    }
    if address < 0x900 {
        return offset_of(address) == 0x0A;
    }
    false
}

impl Core {
    // The byte at an offset, as peeking shows it.
    pub fn read_control(self, version: SguVersion, ch: usize, offset: u8) -> u8
        ensures { result ≡ read_channel_control version self ch offset }
    {
        if ch < NUM_CHANNELS {
            let c = self.channels[ch];
            return c.read_control(version, offset);
        }
        0
    }

    // A PCM register of a channel.
    pub fn read_pcm_reg(self, ch: usize, offset: u8) -> u8
        ensures { result ≡ read_channel_pcm_reg self ch offset }
    {
        if ch < NUM_CHANNELS {
            let c = self.channels[ch];
            let p = c.pcm;
            return p.read(offset);
        }
        0
    }

    // A byte of the wavetables.
    pub fn read_wavetable(self, at: usize) -> u8
        ensures { result ≡ read_wavetable self at }
    {
        if at < WAVETABLES_SIZE {
            return self.wavetables[at];
        }
        0
    }

    // The channels after a control register was read.
    pub fn after_read(self, ch: usize, offset: u8) -> Core
        ensures { result ≡ after_read_channel self ch offset }
    {
        if ch < NUM_CHANNELS {
            let c = self.channels[ch];
            let d = c.after_read(offset);
            return self.stored(ch, d, offset == 0x0A);
        }
        self
    }

    // What a register reads, by its address.
    pub fn peek_register(self, version: SguVersion, address: u32) -> u8
        ensures { result ≡ peek_register version self address }
    {
        if address < 0x800 {
            return self.read_wavetable(address as usize);
        }
        if address < 0x900 {
            let ch = channel_of(address);
            let offset = offset_of(address);
            return self.read_control(version, ch, offset);
        }
        0
    }

    // The channels after a register was read, by its address.
    pub fn after_read_register(self, address: u32) -> Core
        ensures { result ≡ after_read_register self address }
    {
        if address < 0x800 {
            return self;
        }
        if address < 0x900 {
            let ch = channel_of(address);
            let offset = offset_of(address);
            return self.after_read(ch, offset);
        }
        self
    }

    // A channel above 7 answers as the original, and 0 and no under V3.1, where it panics.
    pub fn wavetable_length(self, version: SguVersion, ch: usize) -> usize
        ensures { result ≡ wavetable_length version self ch }
    {
        if ch < NUM_CHANNELS {
            let c = self.channels[ch];
            let p = c.pcm;
            return (version.wavetable_mask(p.sample_control) as usize) + 1;
        }
        if version.has_sample_control() {
            return 0;
        }
        256
    }

    // Whether a channel blends neighbouring samples.
    pub fn interpolates(self, version: SguVersion, ch: usize) -> bool
        ensures { result ≡ interpolates_at version self ch }
    {
        if ch < NUM_CHANNELS {
            let c = self.channels[ch];
            let p = c.pcm;
            return version.interpolates(p.sample_control);
        }
        if version.has_sample_control() {
            return false;
        }
        version.has_3ws8pna()
    }
}
