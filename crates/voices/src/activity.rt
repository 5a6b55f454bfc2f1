// Which of the eight voices are active, and which were and are so no more. The channels alone: the tables need not be handed over.
ghost use Rattle.std.specs.Prelude.{◌≡◌};
ghost use Rattle.voices.specs.Actives.{Actives, ended_since};

use sizes::NUM_CHANNELS;
use voice::Channel;

// Which of the eight channels are active.
pub fn actives(channels: [Channel; 8]) -> [bool; NUM_CHANNELS]
    ensures flags { Actives channels result }
{
    channels.map(|c| c.pcm.active)
}

// The channels that were active and are so no more, as a set: bit n for channel n.
pub fn ended(was: [bool; NUM_CHANNELS], channels: [Channel; 8]) -> u8
    ensures set { result ≡ ended_since was channels }
{
    endings::ended(was, actives(channels))
}
