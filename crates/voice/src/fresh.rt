// A fresh channel, and what is begun anew of one.
ghost use Rattle.std.specs.Prelude.{◌≡◌};
ghost use Rattle.registers.specs.Queue.{default_fifo};
ghost use Rattle.stream.specs.Cache.{emptied};
ghost use Rattle.voice.specs.Channel.{default_channel, set_fifo, set_stream, set_channel_version};

use crate::Channel;
use registers::{Fifo, PcmRegisters, Registers};
use stream::StreamCache;
use ticks::Oscillator;
use version::SguVersion;

// A channel that was just made.
impl Default for Channel {
    ghost is_default = { λ channel. channel ≡ default_channel };

    fn default() -> Channel {
        let c = Channel {
            oscillator: Oscillator::default(),
            fifo: Fifo::default(),
            stream: StreamCache::default(),
            pcm: PcmRegisters::default(),
            registers: Registers::default(),
        };
        c.reset()
    }
}

impl Channel {
    // Every register and all that ticks move begins anew. Wavetable and decoded fragments are beside the channel.
    pub fn reset(mut self) -> Channel
        ensures { result ≡ default_channel }
    {
        let g = Registers::default();
        let p = PcmRegisters::default();
        let o = Oscillator::default();
        self.registers = g;
        self.pcm = p;
        self.oscillator = o;
        self.reset_fifo().invalidate_sqv4()
    }

    // The channel with an empty queue.
    pub fn reset_fifo(mut self) -> Channel
        ensures { result ≡ set_fifo self default_fifo }
    {
        let f = Fifo::default();
        self.fifo = f;
        self
    }

    // The channel with an empty stream cache.
    pub fn invalidate_sqv4(mut self) -> Channel
        ensures { result ≡ set_stream self emptied }
    {
        self.stream = StreamCache::default();
        self
    }

    // The channel under another version: without FIFO where there is none; queue and cache are emptied.
    pub fn set_version(mut self, version: SguVersion) -> Channel
        ensures { result ≡ set_channel_version self version }
    {
        let g = self.registers;
        let w = g.waveform_type;
        let h = g.with_waveform(w.under(version));
        self.registers = h;
        self.reset_fifo().invalidate_sqv4()
    }
}
