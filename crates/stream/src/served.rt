// Ticks that the cache serves.
ghost use Rattle.std.specs.Prelude.{◌≡◌};
ghost use Rattle.stream.specs.Window.{reach_of, window_of, offset_in, serves_at, place_in, tap_in, value_in};

use crate::{StreamCache, Window};

impl StreamCache {
    // How many samples from a fragment's first on are there, together with the one after each. No phase reaches a fragment
    // beyond 2^35.
    fn reach(self, frame: usize) -> usize
        ensures { result ≡ reach_of self frame }
    {
        let held = self.variant;
        let info = self.info;
        if 0x8_0000_0000 <= frame {
            return 0;
        }
        if !self.valid {
            return 0;
        }
        if !held.is_some() {
            return 0;
        }
        if !self.has(frame) {
            return 0;
        }
        let per = sqv4::frame_samples(info.version);
        let first = frame * per;
        if info.sample_count <= first {
            return 0;
        }
        if self.has(frame + 1) {
            return (per + per).min(info.sample_count - first) - 1;
        }
        per.min(info.sample_count - first) - 1
    }

    // What the cache serves from a sample on.
    pub fn window(self, sample: usize) -> Window
        ensures { result ≡ window_of self sample }
    {
        let info = self.info;
        let per = sqv4::frame_samples(info.version);
        let frame = crate::tick::frame_of(info.version, sample);
        let here = 64 * (frame % 2);
        Window {
            first: frame * per,
            per,
            reach: self.reach(frame),
            here,
            next: here + (64 - per),
        }
    }
}

impl Window {
    fn offset(self, sample: usize) -> usize
        ensures { result ≡ offset_in self sample }
    {
        sample.wrapping_sub(self.first)
    }

    // Whether a sample and the one after it are in the cache.
    pub fn serves(self, sample: usize) -> bool
        ensures { result ≡ serves_at self sample }
    {
        self.offset(sample) < self.reach
    }

    // Where a sample stands among the voice's 128.
    fn place(self, sample: usize) -> usize
        ensures { result ≡ place_in self sample }
    {
        let offset = self.offset(sample);
        if offset < self.per {
            return self.here.wrapping_add(offset) % 128;
        }
        self.next.wrapping_add(offset) % 128
    }

    // A decoded sample, where a voice's start at a base.
    fn tap(self, samples: &[i16; 1024], base: usize, sample: usize) -> i16
        ensures { result ≡ tap_in self samples.now base sample }
    {
        let at = base.wrapping_add(self.place(sample)) % 1024;
        samples[at]
    }

    // The value of a tick that is served.
    pub fn value(
        self,
        samples: &[i16; 1024],
        base: usize,
        sample: usize,
        interpolate: bool,
        fraction: u8,
    ) -> i32
        ensures { result ≡ value_in self samples.now base sample interpolate fraction }
    {
        let current = self.tap(samples, base, sample);
        if interpolate {
            let next = self.tap(samples, base, sample.wrapping_add(1));
            return tone::blend_samples(current, next, fraction);
        }
        tone::raised_sample(current)
    }
}
