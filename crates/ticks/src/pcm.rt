// A tick of a PCM voice.
ghost use Rattle.std.specs.Prelude.{◌≡◌, true, false, ◌<◌, eqb, length};
ghost use Rattle.ticks.specs.Oscillators.{no_target};
ghost use Rattle.ticks.specs.Pcm.{pcm_tap, pcm_tick, after_pcm};

use crate::{Oscillator, Setting, Target, Ticked};
use registers::PcmRegisters;

fn pcm_tap(ram: &[u8], at: usize, p: PcmRegisters, s: Setting, phase: u64) -> u16
    requires { at < length ram.now }
    ensures { result ≡ pcm_tap s p ram.now at phase }
{
    let current = ram[at];
    if s.interpolate {
        let after = tone::pcm_next(at, p.end_addr, p.loop_addr, p.control, ram.len());
        return tone::blend(current, ram[after], tone::fraction(phase));
    }
    tone::raised(current)
}

impl Oscillator {
    // The phase after a tick whose sample came from an address; from the end on a sample without a loop is silent.
    fn after_pcm(mut self, s: Setting, p: PcmRegisters, at: usize, q8: i16) -> Ticked
        ensures { result ≡ after_pcm s p at self q8 }
    {
        let phase = self.phase;
        self.phase = tone::pcm_phase_after(
            phase,
            at,
            p.start_addr,
            p.end_addr,
            p.loop_addr,
            p.control,
            s.step,
        );
        Ticked {
            oscillator: self,
            q8: if tone::pcm_is_over(at, p.end_addr, p.control) {
                0
            } else {
                q8
            },
        }
    }

    // A tick whose phase is modulated by a target: there is no slew.
    pub(crate) fn pcm_by(self, s: Setting, p: PcmRegisters, ram: &[u8], t: Target) -> Ticked
        requires { (0 < length ram.now) × (eqb s.modulation 1 ≡ true) }
        ensures { result ≡ pcm_tick s p ram.now t self }
    {
        let phase = self.phase;
        let by = tone::phase_offset(s.param_1, t.last_sample);
        let at = tone::pcm_address(tone::moved(tone::whole(phase), by), p.start_addr, ram.len());
        let q8 = pcm_tap(ram, at, p, s, phase);
        self.after_pcm(s, p, at, tone::centred(q8, s.interpolate))
    }

    // A tick whose phase is not.
    pub(crate) fn pcm_alone(self, s: Setting, p: PcmRegisters, ram: &[u8]) -> Ticked
        requires { (0 < length ram.now) × (eqb s.modulation 1 ≡ false) }
        ensures { result ≡ pcm_tick s p ram.now no_target self }
    {
        let phase = self.phase;
        let at = tone::pcm_address(tone::whole(phase), p.start_addr, ram.len());
        let q8 = pcm_tap(ram, at, p, s, phase);
        let r = self.finish(s, q8, s.interpolate);
        let o = r.oscillator;
        o.after_pcm(s, p, at, r.q8)
    }
}
