// The cache of decoded fragments.
ghost use Rattle.std.specs.Prelude.{◌≡◌, ◌*◌, ◌%◌, ◌^◌, ◌<◌, ◌≤◌, false, length, replicate, pos, if◌then◌else◌, ◌==◌, nat_eq};
ghost use Rattle.std.proofs.lemmas.List.Edits.{sets};
ghost use Rattle.sqv4.specs.Decoding.{zero_state};
ghost use Rattle.stream.specs.Cache.{Plays, stock, emptied, filled_with, rewound_from, cached_at, is_held, stored_as, count_at, frames_of};
ghost use Rattle.stream.specs.Cache.{fragment_samples, fragment_state, load_in, step_in, onward_in, ensure_in};

use crate::{Info, StreamCache};
use adpcm::{State, Variant};

// Every decoded sample is 0, as in an empty cache.
pub fn clear(samples: &mut [i16])
    ensures { samples.new ≡ replicate (length samples.old) (pos 0) }
{
    samples.fill(0);
}

fn holds(cached: Option<usize>, frame: usize) -> bool
    ensures { result ≡ is_held cached frame }
{
    cached == Some(frame)
}

// The samples of a fragment.
fn count_at(info: Info, frame: usize) -> usize
    requires { frame * info.frame_samples < 2 ^ 64 }
    ensures { result ≡ count_at info frame }
{
    let first = frame * info.frame_samples;
    if info.sample_count <= first {
        return 0;
    }
    info.frame_samples.min(info.sample_count - first)
}

// A fragment of the file, decoded into its half, and the state after it: version 3 carries none.
fn decode_into(
    samples: &mut [i16],
    file: &[u8],
    variant: Variant,
    info: Info,
    state: State,
    frame: usize,
) -> State
    requires fact_1 { Plays file.now variant info }
    requires fact_2 { length samples.old ≡ 128 }
    requires fact_3 { frame < frames_of info }
    ensures samples { samples.new
        ≡ sets samples.old (64 * (frame % 2)) (fragment_samples file.now variant info state frame) }
    ensures result { result ≡ (if nat_eq info.version 3 then state else fragment_state file.now variant info state frame) }
{
    let size = info.frame_size;
    let from = 16 + frame * size;
    let to = from + size;
    let at = 64 * (frame % 2);
    let end = at + count_at(info, frame);
    if info.version == 3 {
        sqv4::decode_fragment(variant, &file[from..to], &mut samples[at..end]);
        return state;
    }
    sqv4::decode_legacy_fragment(
        info.version,
        variant,
        state,
        &file[from..to],
        &mut samples[at..end],
    )
}

// A cache that holds nothing.
impl Default for StreamCache {
    ghost is_default = { λ cache. cache ≡ emptied };

    fn default() -> StreamCache {
        StreamCache {
            valid: false,
            variant: None,
            info: Info {
                version: 0,
                sample_count: 0,
                frame_samples: 0,
                frame_size: 0,
                loop_sample: 0,
            },
            even: None,
            odd: None,
            next_frame: 0,
            decoder: State::default(),
        }
    }
}

impl StreamCache {
    pub(crate) fn filled(variant: Variant, info: Info) -> StreamCache
        ensures { result ≡ filled_with variant info }
    {
        StreamCache {
            valid: true,
            variant: Some(variant),
            info,
            ..StreamCache::default()
        }
    }

    // Whether a fragment is in its half.
    pub(crate) fn has(self, frame: usize) -> bool
        ensures { result ≡ is_held (cached_at self (frame % 2)) frame }
    {
        let even = self.even;
        let odd = self.odd;
        if frame % 2 == 0 {
            return holds(even, frame);
        }
        holds(odd, frame)
    }

    // The cache with a fragment in its half, the decoder before `next_frame`.
    fn stored(self, frame: usize, next_frame: usize, decoder: State) -> StreamCache
        ensures { result ≡ stored_as self frame next_frame decoder }
    {
        if frame % 2 == 0 {
            return StreamCache {
                even: Some(frame),
                next_frame,
                decoder,
                ..self
            };
        }
        StreamCache {
            odd: Some(frame),
            next_frame,
            decoder,
            ..self
        }
    }

    fn rewound(self) -> StreamCache
        ensures { result ≡ rewound_from self }
    {
        StreamCache {
            even: None,
            odd: None,
            next_frame: 0,
            decoder: State::default(),
            ..self
        }
    }

    // A version 3 fragment, decoded by itself.
    fn load(self, samples: &mut [i16], file: &[u8], variant: Variant, frame: usize) -> StreamCache
        requires fact_1 { Plays file.now variant self.info }
        requires fact_2 { length samples.old ≡ 128 }
        requires fact_3 { frame < frames_of self.info }
        ensures result { result ≡ (load_in file.now variant self.info (stock self samples.old) frame).cache }
        ensures samples { samples.new
            ≡ (load_in file.now variant self.info (stock self samples.old) frame).samples }
    {
        let info = self.info;
        let decoder = self.decoder;
        decode_into(samples, file, variant, info, decoder, frame);
        self.stored(frame, self.next_frame, decoder)
    }

    // The next fragment of an older file.
    fn step(self, samples: &mut [i16], file: &[u8], variant: Variant) -> StreamCache
        requires fact_1 { Plays file.now variant self.info }
        requires fact_2 { length samples.old
            ≡ 128 }
        requires fact_3 { self.next_frame < frames_of self.info }
        requires fact_4 { (self.info.version == 3) ≡ false }
        ensures result { result ≡ (step_in file.now variant self.info (stock self samples.old)).cache }
        ensures samples { samples.new
            ≡ (step_in file.now variant self.info (stock self samples.old)).samples }
    {
        let info = self.info;
        let frame = self.next_frame;
        let decoder = self.decoder;
        let after = decode_into(samples, file, variant, info, decoder, frame);
        self.stored(frame, frame + 1, after)
    }

    // On to a fragment, from a decoder that is not past it.
    fn onward(
        self,
        samples: &mut [i16],
        file: &[u8],
        variant: Variant,
        target: usize,
    ) -> StreamCache
        requires fact_1 { Plays file.now variant self.info }
        requires fact_2 { length samples.old
            ≡ 128 }
        requires fact_3 { (self.next_frame ≤ target) × (target < frames_of self.info) }
        requires fact_4 { (self.info.version == 3) ≡ false }
        ensures result { result ≡ (onward_in file.now variant self.info (stock self samples.old) target).cache }
        ensures samples { samples.new
            ≡ (onward_in file.now variant self.info (stock self samples.old) target).samples }
    {
        let mut c = self;
        for n in self.next_frame..target + 1 {
            c = c.step(&mut *samples, file, variant);
        }
        c
    }

    // A fragment that is in its half is there; else it is decoded: alone in version 3, in order before.
    pub(crate) fn ensure_sqv4_frame(
        self,
        samples: &mut [i16],
        file: &[u8],
        variant: Variant,
        target: usize,
    ) -> StreamCache
        requires fact_1 { Plays file.now variant self.info }
        requires fact_2 { length samples.old ≡ 128 }
        requires fact_3 { target < frames_of self.info }
        ensures result { result ≡ (ensure_in file.now variant self.info (stock self samples.old) target).cache }
        ensures samples { samples.new
            ≡ (ensure_in file.now variant self.info (stock self samples.old) target).samples }
    {
        if self.has(target) {
            return self;
        }
        let info = self.info;
        if info.version == 3 {
            return self.load(samples, file, variant, target);
        }
        let next = self.next_frame;
        if target < next {
            return self.rewound().onward(samples, file, variant, target);
        }
        self.onward(samples, file, variant, target)
    }
}
