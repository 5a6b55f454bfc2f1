// A core at rest: eight fresh voices, which give zeros and do not move. Elements at fixed places are read where they stand; for a
// loop over its places an array is copied.
#![tactic(auto)]

mod fresh;

ghost use Rattle.std.specs.Prelude.{◌≡◌};
ghost use Rattle.rest.specs.Rest.{fresh_channels, first_centred, zero_fragments, rests as at_rest};

use fresh::{is_fresh, is_zero};
use sizes::WAVETABLES_SIZE;
use voice::Channel;
use voices::Core;

fn are_fresh(channels: [Channel; 8]) -> bool
    ensures { result ≡ fresh_channels channels }
{
    is_fresh(channels[0])
        & is_fresh(channels[1])
        & is_fresh(channels[2])
        & is_fresh(channels[3])
        & is_fresh(channels[4])
        & is_fresh(channels[5])
        & is_fresh(channels[6])
        & is_fresh(channels[7])
}

fn are_centred(wavetables: [u8; WAVETABLES_SIZE]) -> bool
    ensures { result ≡ first_centred wavetables }
{
    (wavetables[0] == 128)
        & (wavetables[256] == 128)
        & (wavetables[512] == 128)
        & (wavetables[768] == 128)
        & (wavetables[1024] == 128)
        & (wavetables[1280] == 128)
        & (wavetables[1536] == 128)
        & (wavetables[1792] == 128)
}

// All are looked at: without an early exit many at a time.
fn are_zeros(fragments: [i16; 1024]) -> bool
    ensures { result ≡ zero_fragments fragments }
{
    let mut others: u16 = 0;
    for fragment in fragments {
        if !is_zero(fragment) {
            others += 1;
        }
    }
    others == 0
}

// Whether the core is at rest.
pub fn rests(core: Core) -> bool
    ensures { result ≡ at_rest core }
{
    let channels = core.channels;
    if !are_fresh(channels) {
        return false;
    }
    let wavetables = core.wavetables;
    if !are_centred(wavetables) {
        return false;
    }
    let fragments = core.fragments;
    are_zeros(fragments)
}
