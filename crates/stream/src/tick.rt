// A stream voice's tick.
ghost use Rattle.std.specs.Prelude.{◌≡◌, ◌+◌, ◌/◌, ◌%◌, ◌^◌, ◌<◌, true, false, length, pos};
ghost use Rattle.sqv4.specs.Files.{frame_samples_of};
ghost use Rattle.stream.specs.Cache.{Plays, stock};
ghost use Rattle.stream.specs.Tick.{plan_of, blends, heard_at, tick_of};
ghost use Rattle.stream.specs.Cached.{cached_read, tap_at, held_found, cached_tick, streamed_of};
ghost use Rattle.stream.specs.Ready.{Ready, with_given};

use crate::{Info, Play, StreamCache, Streamed};
use adpcm::Variant;

// What a tick asks for: nothing, or a sample, with the phase that it is at.
fn plan_of(info: Info, p: Play, phase: u64) -> Option<(usize, u64)>
    ensures { result ≡ plan_of info p phase }
{
    let count = info.sample_count;
    let at = tone::whole(phase) as usize;
    if at < count {
        return Some((at, phase));
    }
    if count == 0 {
        return None;
    }
    if p.loops {
        let again = info.loop_sample;
        return Some((again, tone::phase_of(again as u64)));
    }
    None
}

// A sample's fragment, and its place there.
// Kept as it is: divided by `sqv4::frame_samples`, which is no constant, a log of stream voices takes 1.1 times the time.
pub(crate) fn frame_of(version: u8, sample: usize) -> usize
    ensures { result ≡ sample / frame_samples_of version }
{
    if version == 3 {
        return sample / 63;
    }
    sample / 64
}

fn within_of(version: u8, sample: usize) -> usize
    ensures { (result ≡ sample % frame_samples_of version) × (result < 64) }
{
    if version == 3 {
        return sample % 63;
    }
    sample % 64
}

fn is_mixed(info: Info, p: Play, frac: u8, sample: usize) -> bool
    requires { sample < info.sample_count }
    ensures result { result ≡ blends info p frac sample }
    ensures sample_bound { result ≡ true → sample + 1 < 2 ^ 64 }
{
    if p.interpolate {
        if frac == 0 {
            return false;
        }
        return sample + 1 < info.sample_count;
    }
    false
}

fn tap(samples: &[i16], version: u8, sample: usize) -> i16
    requires { length samples.now ≡ 128 }
    ensures { result ≡ tap_at version samples.now sample }
{
    let at = 64 * (frame_of(version, sample) % 2) + within_of(version, sample);
    samples[at]
}

impl Streamed {
    // The voice is over.
    fn stopped(mut self, cache: StreamCache) -> Streamed
        ensures { result ≡ record { cache = cache; phase = self.phase; active = false; q8 = pos 0 } }
    {
        self.cache = cache;
        self.active = false;
        self.q8 = 0;
        self
    }

    // The voice is not heard.
    fn silent(mut self) -> Streamed
        ensures { result ≡ record { cache = self.cache; phase = self.phase; active = self.active; q8 = pos 0 } }
    {
        self.q8 = 0;
        self
    }

    // The sample, once its fragment and that of the next one are there.
    fn sample(
        mut self,
        samples: &mut [i16],
        file: &[u8],
        p: Play,
        variant: Variant,
        i: usize,
        frac: u8,
    ) -> Streamed
        requires fact_1 { Plays file.now variant self.cache.info }
        requires fact_2 { length samples.old ≡ 128 }
        requires fact_3 { i < self.cache.info.sample_count }
        ensures result { result ≡ with_given self
            (heard_at (cached_read file.now variant self.cache.info) self.cache.info p frac
            (stock self.cache samples.old) i) }
        ensures samples { samples.new
            ≡ (heard_at (cached_read file.now variant self.cache.info) self.cache.info p frac
            (stock self.cache samples.old) i).left.samples }
    {
        let cache = self.cache;
        let info = cache.info;
        let version = info.version;
        let c = cache.ensure_sqv4_frame(&mut *samples, file, variant, frame_of(version, i));
        let current = tap(&*samples, version, i);
        if is_mixed(info, p, frac, i) {
            let next = i + 1;
            let d = c.ensure_sqv4_frame(&mut *samples, file, variant, frame_of(version, next));
            self.q8 = tone::blend_samples(current, tap(&*samples, version, next), frac);
            self.cache = d;
            return self;
        }
        self.q8 = tone::raised_sample(current);
        self.cache = c;
        self
    }

    // The tick of a voice whose cache is valid.
    fn play(self, samples: &mut [i16], file: &[u8], p: Play) -> Streamed
        requires fact_1 { Ready file.now self.cache }
        requires fact_2 { length samples.old ≡ 128 }
        ensures result { result ≡ streamed_of
            (tick_of p self.phase self.active
            (held_found file.now (stock self.cache samples.old) self.cache.variant)) }
        ensures samples { samples.new
            ≡ (tick_of p self.phase self.active
            (held_found file.now (stock self.cache samples.old) self.cache.variant)).stream.samples }
    {
        let cache = self.cache;
        let held = cache.variant;
        let Some(variant) = held else {
            return self.silent();
        };
        let phase = self.phase;
        let info = cache.info;
        let plan = plan_of(info, p, phase);
        let Some((i, from)) = plan else {
            return self.stopped(cache);
        };
        let mut v = self.sample(samples, file, p, variant, i, tone::fraction(phase));
        v.phase = tone::stepped(from, p.step);
        v
    }

    // A tick as the original has it. A cache that is not accepted, or that has not its 128 samples, is not heard.
    pub fn generate_sqv4_sample(self, samples: &mut [i16], ram: &[u8], p: Play) -> Streamed
        ensures result { result ≡ streamed_of
            (cached_tick ram.now p self.phase self.active (stock self.cache samples.old)) }
        ensures samples { samples.new
            ≡ (cached_tick ram.now p self.phase self.active (stock self.cache samples.old)).stream.samples }
    {
        if samples.len() != 128 {
            return self.silent();
        }
        let cache = self.cache;
        if cache.valid {
            if cache.accepts(p.start, p.end, ram.len()) {
                return self.play(samples, sqv4::stream_bytes(ram, p.start, p.end), p);
            }
            return self.silent();
        }
        let opened = crate::file::initialize_sqv4(ram, p.wants_v3, p.start, p.end, p.loop_addr);
        let Some((variant, info)) = opened else {
            crate::cache::clear(samples);
            return self.stopped(StreamCache::default());
        };
        let mut v = self;
        let c = StreamCache::filled(variant, info);
        v.cache = c;
        v.play(samples, sqv4::stream_bytes(ram, p.start, p.end), p)
    }
}
