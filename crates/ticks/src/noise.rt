// A tick of a noise voice, and of a DMA PCM voice.
ghost use Rattle.std.specs.Prelude.{◌≡◌};
ghost use Rattle.ticks.specs.Noise.{shifted_noise, noise_tick, dma_tick};

use crate::{Oscillator, Setting, Ticked};

impl Oscillator {
    // One shift for each 8 samples of phase.
    fn shift(mut self, s: Setting) -> Oscillator
        ensures { result ≡ shifted_noise s self }
    {
        let phase = tone::stepped(self.phase, s.step);
        self.phase = phase;
        let position = tone::whole(phase);
        let old = self.old_phase;
        if old >> 3 == position >> 3 {
            return self;
        }
        let l = self.lfsr_state;
        self.old_phase = position;
        self.lfsr_state = tone::next_lfsr(l, s.modulation == 1, s.param_1, s.param_2);
        self
    }

    pub(crate) fn noise(self, s: Setting) -> Ticked
        ensures { result ≡ noise_tick s self }
    {
        let o = self.shift(s);
        o.finish(s, tone::noise_value(o.lfsr_state), false)
    }

    pub(crate) fn dma_pcm(self) -> Ticked
        ensures { result ≡ dma_tick self }
    {
        Ticked {
            oscillator: self,
            q8: 0,
        }
    }
}
