// The header of a WAV file: a RIFF chunk of form WAVE that holds a format chunk of plain PCM and the samples.
ghost use Rattle.std.specs.Prelude.{◌≡◌, ◌*◌, ◌<◌, ◌≤◌, ◌^◌};
ghost use Rattle.std.specs.Option.{unwrap_or};
ghost use Rattle.output.specs.Output.{Puts};
ghost use Rattle.sqv4_writer.specs.Packing.{bytes_of};
ghost use Rattle.wav.specs.Headers.{block_align, largest_size, size_in, riff_size, format_chunk, wav_header};

use output::Output;

// The bytes of a header.
pub const HEADER: usize = 44;

// The largest size that four bytes hold.
const LARGEST: u64 = 0xffff_ffff;

// Puts a number's low bytes, the lowest first.
fn put_low(out: &mut Output<'_>, n: u64, count: usize)
    requires { count ≤ 8 }
    ensures { Puts out.old out.new (bytes_of count n) }
{
    out.put_bytes(&n.to_le_bytes()[..count]);
}

// The bytes of a sample of every channel.
fn block_align(channels: u16, bits: u16) -> u64
    ensures result { result ≡ block_align channels bits }
    ensures bound { result < 2 ^ 30 }
{
    let bytes = ((bits as u64) + 7) / 8;
    (channels as u64) * bytes
}

// The size of the samples' chunk, and of the RIFF chunk that holds it. No header has a size of more than 37 below the largest.
fn data_size(size: u64) -> u64
    ensures { result ≡ size_in size size }
{
    if LARGEST - 37 < size {
        return LARGEST;
    }
    size
}

fn riff_size(size: u64) -> u64
    ensures { result ≡ size_in size (riff_size size) }
{
    if LARGEST - 37 < size {
        return LARGEST;
    }
    36 + size + size % 2
}

// Puts the format chunk.
fn put_format(out: &mut Output<'_>, channels: u16, rate: u32, bits: u16)
    ensures { Puts out.old out.new (format_chunk channels rate bits) }
{
    let block = block_align(channels, bits);
    out.put_bytes(b"fmt ");
    put_low(&mut *out, 16, 4);
    put_low(&mut *out, 1, 2);
    put_low(&mut *out, channels as u64, 2);
    put_low(&mut *out, rate as u64, 4);
    put_low(&mut *out, (rate as u64) * block, 4);
    put_low(&mut *out, block, 2);
    put_low(out, bits as u64, 2);
}

// Puts the header of a file of so many bytes of samples; where their number is not known, that of more than a header can hold.
pub fn put_header(out: &mut Output<'_>, channels: u16, rate: u32, bits: u16, size: Option<u64>)
    ensures { Puts out.old out.new (wav_header channels rate bits (unwrap_or size largest_size)) }
{
    let size = size.unwrap_or(LARGEST);
    out.put_bytes(b"RIFF");
    put_low(&mut *out, riff_size(size), 4);
    out.put_bytes(b"WAVE");
    put_format(&mut *out, channels, rate, bits);
    out.put_bytes(b"data");
    put_low(out, data_size(size), 4);
}
