// The states in which a chip accepts the eight channels.
ghost use Rattle.std.specs.Prelude.{◌≡◌};
ghost use Rattle.voices.specs.Accepted.{accepts_first, accepts_core};

use crate::Core;
use version::SguVersion;
use voice::Channel;

// The channels alone: the tables need not be handed over.
fn accepts_each(channels: [Channel; 8], version: SguVersion, length: usize) -> bool
    ensures { result ≡ accepts_first 8 channels version length }
{
    for c in &channels {
        if !c.accepts(version, length) {
            return false;
        }
    }
    true
}

impl Core {
    // Whether all eight channels are in accepted states.
    pub fn accepts(self, version: SguVersion, length: usize) -> bool
        ensures { result ≡ accepts_core self version length }
    {
        let channels = self.channels;
        accepts_each(channels, version, length)
    }
}
