// The states in which a chip accepts a voice's cache.
ghost use Rattle.std.specs.Prelude.{◌≡◌, ◌+◌, ◌*◌, ◌<◌, ◌≤◌, ◌==◌};
ghost use Rattle.stream.specs.Cache.{frames_of};
ghost use Rattle.stream.specs.Accepted.{sizes_fit, loop_fits, half_fits, file_fits, accepts_cache};

use crate::{Info, StreamCache};
use adpcm::Variant;

fn sizes_fit(variant: Variant, info: Info) -> bool
    ensures { result ≡ sizes_fit variant info }
{
    if info.version < 1 {
        return false;
    }
    if 3 < info.version {
        return false;
    }
    if info.frame_samples != sqv4::frame_samples(info.version) {
        return false;
    }
    info.frame_size == sqv4::frame_size(info.version, variant)
}

fn is_half_fit(cached: Option<usize>, parity: usize, frames: usize) -> bool
    ensures { result ≡ half_fits cached parity frames }
{
    let Some(f) = cached else {
        return true;
    };
    if f % 2 != parity {
        return false;
    }
    f < frames
}

fn is_loop_fit(loop_sample: usize, per: usize, frames: usize) -> bool
    requires { 0 < per }
    ensures { result ≡ loop_fits loop_sample per frames }
{
    if loop_sample == 0 {
        return true;
    }
    if loop_sample % per != 0 {
        return false;
    }
    loop_sample / per < frames
}

// Whether a header and so many fragments are so long.
fn is_length_fit(size: usize, frames: usize, length: usize) -> bool
    requires { 0 < size }
    ensures { result ≡ (frames * size + 16 == length) }
{
    if length < 16 {
        return false;
    }
    if (length - 16) % size != 0 {
        return false;
    }
    (length - 16) / size == frames
}

// The fragments of the file.
fn frames_of(info: Info) -> usize
    requires { (63 ≤ info.frame_samples) × (info.frame_samples ≤ 64) }
    ensures { result ≡ frames_of info }
{
    info.sample_count.div_ceil(info.frame_samples)
}

impl StreamCache {
    fn is_fit(self, variant: Variant, length: usize) -> bool
        ensures { result ≡ file_fits variant self length }
    {
        let info = self.info;
        if !sizes_fit(variant, info) {
            return false;
        }
        let frames = frames_of(info);
        if !is_length_fit(info.frame_size, frames, length) {
            return false;
        }
        if !is_loop_fit(info.loop_sample, info.frame_samples, frames) {
            return false;
        }
        let decoder = self.decoder;
        if 88 < decoder.index {
            return false;
        }
        let even = self.even;
        if !is_half_fit(even, 0, frames) {
            return false;
        }
        let odd = self.odd;
        if !is_half_fit(odd, 1, frames) {
            return false;
        }
        self.next_frame <= frames
    }

    // Whether a valid cache is that of some file from start to end, in a RAM of that length.
    pub fn accepts(self, start: usize, end: usize, length: usize) -> bool
        ensures { result ≡ accepts_cache self start end length }
    {
        if !self.valid {
            return true;
        }
        if end <= start {
            return false;
        }
        if length < end {
            return false;
        }
        let held = self.variant;
        let Some(variant) = held else {
            return false;
        };
        self.is_fit(variant, end - start)
    }
}
