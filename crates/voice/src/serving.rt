// Ticks of a stream voice that its cache serves without decoding.
ghost use Rattle.std.specs.Prelude.{◌≡◌};
ghost use Rattle.voice.specs.Serving.{serve_tick, served_ticks};

use crate::Served;
use registers::Registers;
use stream::{Play, Window};

impl Served {
    fn step(self, w: Window, g: Registers, samples: &[i16; 1024], base: usize, p: Play) -> Served
        ensures { result ≡ serve_tick w samples.now base p g.volume g.panpot self }
    {
        let old = self.sides;
        let q8 = w.value(
            samples,
            base,
            tone::whole(self.phase) as usize,
            p.interpolate,
            tone::fraction(self.phase),
        );
        let sides = old.with_stream_value(q8, g.volume, g.panpot);
        Served {
            ticks: self.ticks.wrapping_add(1),
            phase: tone::stepped(self.phase, p.step),
            q8,
            sides,
        }
    }

    // At most n ticks, as long as the cache serves them.
    pub fn run(
        self,
        n: usize,
        w: Window,
        g: Registers,
        samples: &[i16; 1024],
        base: usize,
        p: Play,
    ) -> Served
        ensures { result ≡ served_ticks n w samples.now base p g.volume g.panpot self }
    {
        let mut v = self;
        for k in 0..n {
            if !w.serves(tone::whole(v.phase) as usize) {
                return v;
            }
            v = v.step(w, g, samples, base, p);
        }
        v
    }
}
