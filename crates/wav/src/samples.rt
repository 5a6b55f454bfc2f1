// Samples of 16 bits as bytes, the low one first; a frame is its left sample and its right one.
ghost use Rattle.std.specs.Prelude.{◌≡◌, ◌/◌, min, pos, length, get_or};
ghost use Rattle.output.specs.Output.{Puts};
ghost use Rattle.sizes.specs.Sizes.{stems_per_frame};
ghost use Rattle.wav.specs.Samples.{sample_bytes, frame_bytes, samples_bytes, sides_bytes, channel_bytes};

use output::Output;
use sizes::{LAST_CHANNEL, STEMS};

// Its bytes go one by one: both at once are a call of the C library for each sample, which takes longer.
fn put_sample(out: &mut Output<'_>, sample: i16)
    ensures { Puts out.old out.new (sample_bytes sample) }
{
    let bytes = sample.to_le_bytes();
    out.put_byte(bytes[0]);
    out.put_byte(bytes[1]);
}

fn put_frame(out: &mut Output<'_>, left: i16, right: i16)
    ensures { Puts out.old out.new (frame_bytes left right) }
{
    put_sample(&mut *out, left);
    put_sample(out, right);
}

// Puts samples one behind the other.
pub fn put_samples(out: &mut Output<'_>, samples: &[i16])
    ensures { Puts out.old out.new (samples_bytes samples.now) }
{
    out.at = out.at.min(out.buffer.len());
    for &sample in samples {
        put_sample(&mut *out, sample);
    }
}

// Puts the frames of two sides, as many as the shorter has.
pub fn put_sides(out: &mut Output<'_>, left: &[i16], right: &[i16])
    ensures { Puts out.old out.new
        (sides_bytes left.now right.now (min (length left.now) (length right.now))) }
{
    out.at = out.at.min(out.buffer.len());
    for (&l, &r) in left.iter().zip(right) {
        put_frame(&mut *out, l, r);
    }
}

// Puts the frames of one channel of some stems, of which each frame has 16; there is no channel above 7.
pub fn put_channel(out: &mut Output<'_>, stems: &[i16], channel: usize)
    ensures { Puts out.old out.new
        (channel_bytes channel stems.now (length stems.now / stems_per_frame)) }
{
    out.at = out.at.min(out.buffer.len());
    if LAST_CHANNEL < channel {
        return;
    }
    for frame in stems.chunks_exact(STEMS) {
        put_frame(&mut *out, frame[2 * channel], frame[2 * channel + 1]);
    }
}
