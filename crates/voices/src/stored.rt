// A channel put back among the eight.
ghost use Rattle.std.specs.Prelude.{◌≡◌, ◌<◌, length};
ghost use Rattle.sizes.specs.Sizes.{num_channels};
ghost use Rattle.voices.specs.Core.{no_fragments, stored_channel};

use crate::Core;
use sizes::NUM_CHANNELS;
use voice::Channel;

fn clear_part(samples: &mut [i16], ch: usize)
    requires { length samples.old ≡ 1024 }
    ensures { samples.new ≡ no_fragments ch samples.old }
{
    if ch < NUM_CHANNELS {
        let from = ch * 128;
        let to = from + 128;
        stream::clear(&mut samples[from..to]);
    }
}

// The decoded fragments of a voice, zeros; a channel above 7 has none.
pub fn clear_fragments(samples: &mut [i16; 1024], ch: usize)
    ensures { samples.new ≡ no_fragments ch samples.old }
{
    clear_part(samples, ch);
}

impl Core {
    // Where the channel's cache was emptied, its fragments are too.
    pub(crate) fn stored(mut self, ch: usize, c: Channel, invalidated: bool) -> Core
        requires { ch < num_channels }
        ensures { result ≡ stored_channel self ch c invalidated }
    {
        self.channels[ch] = c;
        if invalidated {
            clear_fragments(&mut self.fragments, ch);
        }
        self
    }
}
