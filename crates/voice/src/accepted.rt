// The states in which a chip accepts a channel.
ghost use Rattle.std.specs.Prelude.{◌≡◌};
ghost use Rattle.voice.specs.Accepted.{accepts_stream, accepts_channel};

use crate::Channel;
use stream::StreamCache;
use version::SguVersion;

fn is_valid(cache: StreamCache) -> bool
    ensures { result ≡ cache.valid }
{
    cache.valid
}

impl Channel {
    // A valid cache is that of a stream voice, from its start to its end.
    fn accepts_stream(self, length: usize) -> bool
        ensures { result ≡ accepts_stream self length }
    {
        let g = self.registers;
        let w = g.waveform_type;
        let p = self.pcm;
        let s = self.stream;
        if is_valid(s) {
            if w.is_sqv4() {
                return s.accepts(p.start_addr as usize, p.end_addr as usize, length);
            }
            return false;
        }
        true
    }

    // Whether the channel is in an accepted state.
    pub fn accepts(self, version: SguVersion, length: usize) -> bool
        ensures { result ≡ accepts_channel self version length }
    {
        let g = self.registers;
        if !g.accepts(version) {
            return false;
        }
        let p = self.pcm;
        if !p.accepts() {
            return false;
        }
        let o = self.oscillator;
        if !o.accepts() {
            return false;
        }
        let f = self.fifo;
        if !f.accepts(version) {
            return false;
        }
        self.accepts_stream(length)
    }
}
