// Writes at the registers' addresses, and what a write to the RAM makes of the voices.
ghost use Rattle.std.specs.Prelude.{◌≡◌, ◌<◌, length};
ghost use Rattle.sizes.specs.Sizes.{num_channels, queue_buffer};
ghost use Rattle.voices.specs.Writes.{with_queues, write_channel_control, write_channel_control_queues, write_channel_pcm_reg};
ghost use Rattle.voices.specs.Writes.{write_wavetable, write_block, write_block_queues, write_register, write_register_queues};
ghost use Rattle.voices.specs.Writes.{after_ram_write};

use crate::Core;
use crate::addresses::{channel_of, offset_of};
use crate::lists::{empties, write_at};
use crate::stored::clear_fragments;
use sizes::{FIFO_CAPACITY, NUM_CHANNELS, QUEUE_BUFFER, WAVETABLES_SIZE};
use version::SguVersion;
use voice::Channel;

impl Core {
    // The voice is lent its own part of the queue buffer.
    fn write_voice(
        self,
        version: SguVersion,
        queues: &mut [i16],
        ch: usize,
        offset: u8,
        value: u8,
    ) -> Core
        requires { (ch < num_channels) × (length queues.old ≡ queue_buffer) }
        ensures { (result ≡ write_channel_control version self ch offset value)
            × (queues.new ≡ write_channel_control_queues version self queues.old ch offset value) }
    {
        let c = self.channels[ch];
        let from = ch * FIFO_CAPACITY;
        let to = from + FIFO_CAPACITY;
        let d = c.write_control(version, &mut queues[from..to], offset, value);
        self.stored(ch, d, Channel::control_write_invalidates(offset))
    }

    // A control register of a channel written.
    pub fn write_control(
        self,
        version: SguVersion,
        queues: &mut [i16],
        ch: usize,
        offset: u8,
        value: u8,
    ) -> Core
        ensures result { result ≡ with_queues queues.old (write_channel_control version self ch offset value) self }
        ensures queues { queues.new
            ≡ with_queues queues.old (write_channel_control_queues version self queues.old ch offset value)
            queues.old }
    {
        if queues.len() != QUEUE_BUFFER {
            return self;
        }
        if ch < NUM_CHANNELS {
            return self.write_voice(version, queues, ch, offset, value);
        }
        self
    }

    // A PCM register of a channel written.
    pub fn write_pcm_reg(self, ch: usize, offset: u8, value: u8) -> Core
        ensures { result ≡ write_channel_pcm_reg self ch offset value }
    {
        if ch < NUM_CHANNELS {
            let c = self.channels[ch];
            let d = c.write_pcm_reg(offset, value);
            return self.stored(ch, d, Channel::pcm_write_invalidates(offset));
        }
        self
    }

    // A byte of the wavetables written.
    pub fn write_wavetable(mut self, at: usize, value: u8) -> Core
        ensures { result ≡ write_wavetable self at value }
    {
        if at < WAVETABLES_SIZE {
            self.wavetables[at] = value;
        }
        self
    }

    // Kept as it is: `write_voice` differs in the two functions that it calls; one function of two closures for both would be as long, and its contract longer.
    fn write_block(
        self,
        version: SguVersion,
        queues: &mut [i16],
        ch: usize,
        offset: u8,
        value: u8,
    ) -> Core
        requires { (ch < num_channels) × (length queues.old ≡ queue_buffer) }
        ensures { (result ≡ write_block version self ch offset value)
            × (queues.new ≡ write_block_queues version self queues.old ch offset value) }
    {
        let c = self.channels[ch];
        let from = ch * FIFO_CAPACITY;
        let to = from + FIFO_CAPACITY;
        let d = write_at(c, version, &mut queues[from..to], offset, value);
        self.stored(ch, d, empties(offset))
    }

    // 0 to 0x7FF are wavetables, 0x800 to 0x8FF eight blocks of 32.
    pub fn write_register(
        self,
        version: SguVersion,
        queues: &mut [i16],
        address: u32,
        value: u8,
    ) -> Core
        ensures result { result ≡ with_queues queues.old (write_register version self address value) self }
        ensures queues { queues.new
            ≡ with_queues queues.old (write_register_queues version self queues.old address value) queues.old }
    {
        if queues.len() != QUEUE_BUFFER {
            return self;
        }
        if address < 0x800 {
            return self.write_wavetable(address as usize, value);
        }
        if address < 0x900 {
            let ch = channel_of(address);
            let offset = offset_of(address);
            return self.write_block(version, queues, ch, offset, value);
        }
        self
    }

    // The cache of each voice whose stream has that byte is emptied.
    pub(crate) fn forget(&mut self, address: u32)
        ensures { self.new ≡ after_ram_write self.old address }
    {
        for ch in 0usize..8 {
            let c = self.channels[ch];
            if c.streams_from(address) {
                self.channels[ch] = c.invalidate_sqv4();
                clear_fragments(&mut self.fragments, ch);
            }
        }
    }

    // The voices after that byte was written to the RAM.
    pub fn after_ram_write(mut self, address: u32) -> Core
        ensures { result ≡ after_ram_write self address }
    {
        self.forget(address);
        self
    }
}
