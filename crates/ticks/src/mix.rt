// A tick's value slewed and centred, and its sample on the two sides.
ghost use Rattle.std.specs.Prelude.{◌≡◌};
ghost use Rattle.tone.specs.Mix.{volume_of, stream_volume_of, master_gain};
ghost use Rattle.ticks.specs.Finish.{finished};
ghost use Rattle.ticks.specs.Mix.{silence, heard, sound_after};

use crate::{Oscillator, Setting, Sides, Sound, Ticked};

impl Oscillator {
    pub(crate) fn finish(mut self, s: Setting, q8: u16, interpolate: bool) -> Ticked
        ensures { result ≡ finished s self q8 interpolate }
    {
        let slew = tone::slew(s.modulation, self.slew_current, q8, s.param_1);
        self.slew_current = slew;
        let value = tone::centred(tone::slewed(s.modulation, slew, q8), interpolate);
        Ticked {
            oscillator: self,
            q8: value,
        }
    }
}

impl Sides {
    // Two silent sides.
    pub fn silent() -> Sides
        ensures { result ≡ silence }
    {
        Sides {
            sample: 0,
            left: 0,
            right: 0,
        }
    }

    // A sample, and what it is after the master gain, by the panpot.
    fn with(self, sample: i16, gained: i16, panpot: u8) -> Sides
        requires { gained ≡ master_gain sample }
        ensures { result ≡ heard self sample panpot }
    {
        Sides {
            sample,
            left: tone::wrapping_add(self.left, tone::pan(gained, tone::high_nibble(panpot))),
            right: tone::wrapping_add(self.right, tone::pan(gained, tone::low_nibble(panpot))),
        }
    }

    // An oscillator's value added to the sides.
    pub fn with_value(self, q8: i16, volume: u8, panpot: u8) -> Sides
        ensures { result ≡ heard self (volume_of q8 volume) panpot }
    {
        self.with(
            tone::volume_of(q8, volume),
            tone::gained(q8, volume),
            panpot,
        )
    }

    // A stream's value added to the sides.
    pub fn with_stream_value(self, q8: i32, volume: u8, panpot: u8) -> Sides
        ensures { result ≡ heard self (stream_volume_of q8 volume) panpot }
    {
        self.with(
            tone::stream_volume_of(q8, volume),
            tone::stream_gained(q8, volume),
            panpot,
        )
    }

    // A queue's sample added to the sides.
    pub fn with_sample(self, sample: i16, panpot: u8) -> Sides
        ensures { result ≡ heard self sample panpot }
    {
        self.with(sample, tone::apply_master_gain(sample), panpot)
    }
}

impl Sound {
    // The sound after a tick of the oscillator.
    pub(crate) fn after(self, r: Ticked, s: Setting) -> Sound
        ensures { result ≡ sound_after s self.sides r }
    {
        let mut oscillator = r.oscillator;
        oscillator.last_sample = tone::last_sample(r.q8);
        let old = self.sides;
        let sides = old.with_value(r.q8, s.volume, s.panpot);
        Sound { oscillator, sides }
    }
}
