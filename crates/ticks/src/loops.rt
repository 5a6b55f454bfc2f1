// A voice's ticks, one after the other.
ghost use Rattle.std.specs.Prelude.{◌≡◌, false, cond};
ghost use Rattle.ticks.specs.declared.Oscillator.{Oscillator};
ghost use Rattle.ticks.specs.declared.Target.{Target};
ghost use Rattle.ticks.specs.declared.Ticked.{Ticked};
ghost use Rattle.ticks.specs.Sounds.{Tick, target_for, ticks_of, sound_ticks};

use crate::wavetable::looks_at;
use crate::{Oscillator, Setting, Sound, Target, Ticked};
use registers::{PcmRegisters, Registers, WaveformType};
use sizes::WAVETABLES_SIZE;

fn either(first: bool, a: usize, b: usize) -> usize
    ensures { result ≡ cond first a b }
{
    if first { a } else { b }
}

impl Sound {
    // What modulates it now: itself, or another voice.
    fn target(self, own: bool, t: Target) -> Target
        ensures { result ≡ target_for own t self.oscillator }
    {
        let o = self.oscillator;
        if own {
            return Target {
                last_sample: o.last_sample,
                phase: o.phase,
                cycle: t.cycle,
            };
        }
        t
    }

    // Some ticks of the kind that `tick` is, over a target that stands still.
    fn ticked<F: Fn(Oscillator) -> Ticked>(self, n: usize, s: Setting, tick: F) -> Sound
        requires { F.IsAlwaysCallable tick }
        ensures { (wanted : Tick) (t : Target) → ((o : Oscillator) (r : Ticked) → F.post tick o r → r ≡ wanted t o)
            → result ≡ ticks_of n wanted s false t self }
    {
        let mut v = self;
        for k in 0..n {
            v = v.after(tick(v.oscillator), s);
        }
        v
    }

    // The target is another voice, which stands still for all the ticks, or this voice itself, for one tick at a time.
    fn modulated<F: Fn(Oscillator, Target) -> Ticked>(
        self,
        n: usize,
        s: Setting,
        own: bool,
        t: Target,
        tick: F,
    ) -> Sound
        requires { F.IsAlwaysCallable tick }
        ensures { (wanted : Tick) → ((o : Oscillator) (u : Target) (r : Ticked) → F.post tick o u r → r ≡ wanted u o)
            → result ≡ ticks_of n wanted s own t self }
    {
        let rounds = either(own, n, 1);
        let each = either(own, 1, n);
        let mut v = self;
        for k in 0..rounds {
            let u = v.target(own, t);
            v = v.ticked(each, s, |o| tick(o, u));
        }
        v
    }

    // Ticks of a voice that is neither stream nor queue. Modulations 1 to 4 of a wavetable, and 1 of PCM, look at a target.
    pub fn run(
        self,
        n: usize,
        g: Registers,
        s: Setting,
        p: PcmRegisters,
        wavetables: &[u8; WAVETABLES_SIZE],
        ram: &[u8],
        ch: usize,
        own: bool,
        t: Target,
    ) -> Sound
        ensures { result ≡ sound_ticks n g.waveform_type s p wavetables.now ram.now ch own t self }
    {
        let w = g.waveform_type;
        let base = (ch & 7) * 256;
        match w {
            WaveformType::Wavetable => {
                if looks_at(s.modulation) {
                    return self.modulated(
                        n,
                        s,
                        own,
                        t,
                        |o, u| o.wavetable_by(s, wavetables, base, u),
                    );
                }
                self.ticked(n, s, |o| o.wavetable_alone(s, wavetables, base))
            }
            WaveformType::Pcm => {
                if ram.len() == 0 {
                    return self;
                }
                if s.modulation == 1 {
                    return self.modulated(n, s, own, t, |o, u| o.pcm_by(s, p, ram, u));
                }
                self.ticked(n, s, |o| o.pcm_alone(s, p, ram))
            }
            WaveformType::Noise => self.ticked(n, s, |o| o.noise(s)),
            // A DMA PCM voice is silent.
            WaveformType::DmaPcm => self.ticked(n, s, |o| o.dma_pcm()),
            WaveformType::Sqv4 | WaveformType::FifoDac => self,
        }
    }
}
