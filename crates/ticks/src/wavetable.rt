// A tick of a wavetable voice. The voice's bytes are the 256 of the tables from a base on.
ghost use Rattle.std.specs.Prelude.{◌≡◌, false, ◌≤◌};
ghost use Rattle.ticks.specs.Oscillators.{no_target};
ghost use Rattle.ticks.specs.Wavetable.{wave_place, wave_tap, synced, looks_at, wavetable_tick};
ghost use Rattle.ticks.specs.Wavetable.{shaped as shaped_by};

use crate::{Oscillator, Setting, Target, Ticked};
use sizes::WAVETABLES_SIZE;

// Modulations 1 to 4 look at a target.
#[tactic(auto, unfolding(crate::specs::Wavetable::looks_at))]
pub(crate) fn looks_at(modulation: u8) -> bool
    ensures { result ≡ looks_at modulation }
{
    (modulation <= 4) & (0 < modulation)
}

fn wave_place(phase: u64, s: Setting, t: Target) -> u8
    ensures { result ≡ wave_place s t phase }
{
    let position = tone::whole(phase);
    if s.modulation == 1 {
        let by = tone::phase_offset(s.param_1, t.last_sample);
        return tone::wave_index(tone::moved(position, by), s.mask);
    }
    tone::wave_index(position, s.mask)
}

fn wave_tap(
    wavetables: &[u8; WAVETABLES_SIZE],
    base: usize,
    index: u8,
    s: Setting,
    phase: u64,
) -> u16
    requires { base ≤ 1792 }
    ensures { result ≡ wave_tap s wavetables.now base index phase }
{
    let at = base + index as usize;
    let after = base + tone::wave_after(index, s.mask) as usize;
    let current = wavetables[at];
    let next = wavetables[after];
    if s.interpolate {
        return tone::blend(current, next, tone::fraction(phase));
    }
    tone::raised(current)
}

fn is_synced(s: Setting, t: Target) -> bool
    ensures { result ≡ synced s t }
{
    if s.modulation == 3 {
        return t.phase < t.cycle;
    }
    false
}

// Ring, hard sync and window.
fn shaped(q8: u16, s: Setting, t: Target, first: u8) -> u16
    ensures { result ≡ shaped_by s t first q8 }
{
    if s.modulation == 2 {
        return tone::ring(q8, t.last_sample, s.param_1, s.interpolate);
    }
    if is_synced(s, t) {
        return tone::raised(first);
    }
    if s.modulation == 4 {
        return tone::window(q8, t.last_sample);
    }
    q8
}

impl Oscillator {
    // A tick that is modulated by a target: there is no slew.
    pub(crate) fn wavetable_by(
        mut self,
        s: Setting,
        wavetables: &[u8; WAVETABLES_SIZE],
        base: usize,
        t: Target,
    ) -> Ticked
        requires { (base ≤ 1792) × (s.modulation ≤ 4) }
        ensures { result ≡ wavetable_tick s wavetables.now base t self }
    {
        let phase = tone::stepped(self.phase, s.step);
        let index = wave_place(phase, s, t);
        let tap = wave_tap(wavetables, base, index, s, phase);
        let q8 = shaped(tap, s, t, wavetables[base]);
        self.phase = if is_synced(s, t) { 0 } else { phase };
        Ticked {
            oscillator: self,
            q8: tone::centred(q8, s.interpolate),
        }
    }

    // A tick that looks at no target.
    pub(crate) fn wavetable_alone(
        mut self,
        s: Setting,
        wavetables: &[u8; WAVETABLES_SIZE],
        base: usize,
    ) -> Ticked
        requires { (base ≤ 1792) × (looks_at s.modulation ≡ false) }
        ensures { result ≡ wavetable_tick s wavetables.now base no_target self }
    {
        let phase = tone::stepped(self.phase, s.step);
        let index = tone::wave_index(tone::whole(phase), s.mask);
        let tap = wave_tap(wavetables, base, index, s, phase);
        self.phase = phase;
        self.finish(s, tap, s.interpolate)
    }
}
