// A stream voice's ticks, one after the other.
ghost use Rattle.std.specs.Prelude.{◌≡◌};
ghost use Rattle.voice.specs.Streaming.{lent, stream_tick, stream_ticks, stream_ticks_at};

use crate::StreamSound;
use registers::Registers;
use stream::Play;

impl StreamSound {
    // A voice that has ended is silent.
    fn step(self, g: Registers, samples: &mut [i16], ram: &[u8], p: Play) -> StreamSound
        ensures { lent result samples.new ≡ stream_tick ram.now p g.volume g.panpot (lent self samples.old) }
    {
        let v = self.voice;
        let old = self.sides;
        if v.active {
            let voice = v.generate_sqv4_sample(samples, ram, p);
            let sides = old.with_stream_value(voice.q8, g.volume, g.panpot);
            return StreamSound { voice, sides };
        }
        self
    }

    // Some ticks of a stream voice.
    pub fn run(
        self,
        n: usize,
        g: Registers,
        samples: &mut [i16],
        ram: &[u8],
        p: Play,
    ) -> StreamSound
        ensures { lent result samples.new
            ≡ stream_ticks n ram.now p g.volume g.panpot (lent self samples.old) }
    {
        let mut v = self;
        for k in 0..n {
            v = v.step(g, &mut *samples, ram, p);
        }
        v
    }

    // Ticks with a voice's own decoded samples, 128 from a base on; a base without as many is none.
    pub fn run_at(
        self,
        n: usize,
        g: Registers,
        samples: &mut [i16],
        base: usize,
        ram: &[u8],
        p: Play,
    ) -> StreamSound
        ensures { lent result samples.new
            ≡ stream_ticks_at base n ram.now p g.volume g.panpot (lent self samples.old) }
    {
        if samples.len() < 128 {
            return self;
        }
        if samples.len() - 128 < base {
            return self;
        }
        let end = base + 128;
        self.run(n, g, &mut samples[base..end], ram, p)
    }
}
