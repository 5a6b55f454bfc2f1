// What becomes of some frames.
ghost use Rattle.std.specs.Prelude.{◌≤◌};

use crate::files::{NAME, of_voice};
use crate::measuring::measured;
use crate::{FRAMES, Run, Sound};
use output::Output;
use program::{STDOUT, written};
use sizes::{NUM_CHANNELS, STEMS};

// The mix, by way of two sides of zeros.
fn mix_by(
    stems: &[i16],
    others: &[i16],
    left: &mut [i16],
    right: &mut [i16],
    out: &mut [u8],
) -> bool {
    sides::add(stems, others, &mut *left, &mut *right, 0);
    let mut bytes = Output {
        buffer: &mut *out,
        at: 0,
    };
    wav::put_sides(&mut bytes, left, right);
    let end = bytes.at;
    written(NAME, STDOUT, num::part(out, 0, end))
}

fn mix(stems: &[i16], others: &[i16], out: &mut [u8]) -> bool {
    let mut left = [0i16; FRAMES];
    let mut right = [0i16; FRAMES];
    let n = (stems.len() / STEMS).min(FRAMES);
    mix_by(stems, others, &mut left[..n], &mut right[..n], out)
}

// Each frame's stems, core 0's and then core 1's.
fn all_stems(stems: &[i16], others: &[i16], out: &mut [u8]) -> bool {
    let mut bytes = Output {
        buffer: &mut *out,
        at: 0,
    };
    for (one, other) in stems.chunks_exact(STEMS).zip(others.chunks_exact(STEMS)) {
        wav::put_samples(&mut bytes, one);
        wav::put_samples(&mut bytes, other);
    }
    let end = bytes.at;
    written(NAME, STDOUT, num::part(out, 0, end))
}

// Each voice's go to its file; `first` is the first voice of core 0 or 1.
fn voices(first: usize, stems: &[i16], out: &mut [u8]) -> bool
    requires { first ≤ 8 }
{
    for channel in 0..NUM_CHANNELS {
        let mut bytes = Output {
            buffer: &mut *out,
            at: 0,
        };
        wav::put_channel(&mut bytes, stems, channel);
        let end = bytes.at;
        if !written(NAME, of_voice(first + channel), num::part(&*out, 0, end)) {
            return false;
        }
    }
    true
}

fn all_voices(stems: &[i16], others: &[i16], out: &mut [u8]) -> bool {
    if voices(0, stems, &mut *out) {
        return voices(NUM_CHANNELS, others, out);
    }
    false
}

// A run that goes on where its frames could be written.
fn going(run: Run, could: bool) -> Run {
    if could {
        return run;
    }
    run.stopped()
}

// A run after the frames of its last lines.
pub(crate) fn sounded(
    sound: Sound,
    run: Run,
    stems: &[i16],
    others: &[i16],
    out: &mut [u8],
) -> Run {
    match sound {
        Sound::Mix => going(run, mix(stems, others, out)),
        Sound::Stems => going(run, all_stems(stems, others, out)),
        Sound::Split => going(run, all_voices(stems, others, out)),
        Sound::Levels => measured(run, stems, others, out),
    }
}
