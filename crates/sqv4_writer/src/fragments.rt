// A header, and fragments one after the other.
ghost use Rattle.std.specs.Prelude.{◌≡◌, ◌≤◌, ◌<◌, ◌^◌, length};
ghost use Rattle.output.specs.Output.{Puts};
ghost use Rattle.sqv4_writer.specs.Streams.{header_bytes, fragment_for, fragments_for, fragment_count, max_samples};

use crate::choice::choose_codes;
use crate::packing::pack;
use crate::{FRAGMENT_SAMPLES, Terms, VERSION};
use adpcm::Variant;
use output::Output;

// Puts the 16 bytes ahead of the fragments.
pub(crate) fn put_header(out: &mut Output<'_>, variant: Variant, rate: u32, samples: u32)
    ensures { Puts out.old out.new (header_bytes variant rate samples) }
{
    let name = sqv4::MAGIC;
    out.put_bytes(&name);
    out.put_bytes(&[VERSION, u8::from(variant), 1, 0]);
    out.put_bytes(&rate.to_le_bytes());
    out.put_bytes(&samples.to_le_bytes());
}

// The fragments that hold a number of samples.
pub(crate) fn fragment_count(samples: usize) -> usize
    requires { samples ≤ max_samples }
    ensures result { result ≡ fragment_count samples }
    ensures upper_bound { result < 2 ^ 32 }
{
    samples.div_ceil(FRAGMENT_SAMPLES)
}

// Puts a fragment of at most 63 samples.
fn put_fragment(out: &mut Output<'_>, samples: &[i16], terms: Terms)
    requires { length samples.now ≤ 63 }
    ensures { Puts out.old out.new (fragment_for terms.variant terms.volume terms.index samples.now) }
{
    let variant = terms.variant;
    let bits = variant.bits();
    let packed = pack(choose_codes(samples, terms), bits);
    out.put_bytes(&[terms.volume, terms.index]);
    out.put_bytes(&packed[..8 * bits]);
}

// Puts all fragments.
pub(crate) fn put_fragments(out: &mut Output<'_>, samples: &[i16], terms: Terms)
    requires { out.old.at ≤ length out.old.buffer.now }
    ensures { Puts out.old out.new
        (fragments_for terms.variant terms.volume terms.index samples.now (fragment_count (length samples.now))) }
{
    for part in samples.chunks(FRAGMENT_SAMPLES) {
        put_fragment(&mut *out, part, terms);
    }
}
