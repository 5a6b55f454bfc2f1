// The whole of a file.
ghost use Rattle.std.specs.Prelude.{◌≡◌, ℕ, ◌+◌, ◌*◌, ◌^◌, ◌<◌, ◌≤◌};
ghost use Rattle.sqv4.specs.Files.{Fills, inspected, number_of, refused_with};
ghost use Rattle.sqv4.specs.Decoding.{strided};
ghost use Rattle.sqv4.specs.Whole.{channel_whole, decoded_into};

use crate::fragment::Places;
use crate::{Header, InspectError};
use adpcm::State;

// The samples of one channel, to its places among the interleaved ones.
fn decode_channel(file: &[u8], header: Header, channel: usize, samples: &mut [i16])
    requires fact_1 { Fills file.now header }
    requires fact_2 { channel < header.channels }
    ensures { samples.new
        ≡ strided samples.old channel header.channels (channel_whole file.now header channel) }
{
    let variant = header.variant;
    let channels = header.channels as usize;
    let size = header.frame_size;
    let mut state = State::default();
    let mut from = 16 + channel * size;
    let mut at = channel;
    for frame in 0..header.frame_count {
        let count = crate::check::frame_length(header, frame);
        let to = from + size;
        let places = Places {
            at,
            step: channels,
            count,
        };
        state = crate::fragment::decode_part(
            header.version,
            variant,
            state,
            &file[from..to],
            samples,
            places,
        );
        at += count * channels;
        from += size * channels;
    }
}

// A whole file into `samples`, its channels interleaved: the shorter of the two is served.
pub fn decode(file: &[u8], samples: &mut [i16]) -> Result<Header, InspectError>
    ensures result { result ≡ inspected file.now }
    ensures result_value { number_of result ≡ refused_with file.now }
    ensures samples { samples.new ≡ decoded_into samples.old file.now (inspected file.now) }
{
    let header = crate::check::inspect(file)?;
    decode_channel(file, header, 0, samples);
    if header.channels == 2 {
        decode_channel(file, header, 1, samples);
    }
    Ok(header)
}
