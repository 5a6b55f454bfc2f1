// Fresh voices, one voice reset, all of them under another version.
ghost use Rattle.std.specs.Prelude.{◌≡◌, ◌<◌};
ghost use Rattle.sizes.specs.Sizes.{num_channels};
ghost use Rattle.voices.specs.Core.{fresh_core, set_wavetables, no_wavetable, reset_channel_at, set_core_version};

use crate::Core;
use sizes::{NUM_CHANNELS, WAVETABLES_SIZE};
use version::SguVersion;
use voice::Channel;

// Eight voices that were just made.
impl Default for Core {
    ghost is_default = { λ core. core ≡ fresh_core };

    fn default() -> Core {
        let c = Channel::default();
        Core {
            channels: [c; 8],
            fragments: [0i16; 1024],
            wavetables: [0x80u8; WAVETABLES_SIZE],
        }
    }
}

impl Core {
    fn reset_wavetable(self, ch: usize) -> Core
        requires { ch < num_channels }
        ensures { result ≡ set_wavetables self (no_wavetable ch self.wavetables) }
    {
        let mut core = self;
        let from = ch * 256;
        core.wavetables[from..from + 256].fill(0x80);
        core
    }

    // A voice reset, with its wavetable and its decoded fragments; a channel above 7 is none.
    pub fn reset_channel(self, ch: usize) -> Core
        ensures { result ≡ reset_channel_at self ch }
    {
        if ch < NUM_CHANNELS {
            let c = self.channels[ch];
            return self.stored(ch, c.reset(), true).reset_wavetable(ch);
        }
        self
    }

    // The eight voices under another version.
    pub fn set_version(self, version: SguVersion) -> Core
        ensures { result ≡ set_core_version self version }
    {
        let mut core = self;
        for c in &mut core.channels {
            *c = c.set_version(version);
        }
        core.fragments = [0i16; 1024];
        core
    }
}
