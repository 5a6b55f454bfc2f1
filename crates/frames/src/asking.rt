// What the calls of a list ask for.
ghost use Rattle.std.specs.Prelude.{◌≡◌, ◌*◌, ◌^◌, ◌<◌, ◌≤◌, length, ◌==◌};
ghost use Rattle.sizes.specs.Sizes.{stems_per_frame};
ghost use Rattle.frames.specs.Listing.{asked_of, frames_asked, call_count, clocked_as};

use crate::{
    Asked, CLOCK, PEEK_REGISTER, READ_REGISTER, SET_VERSION, WRITE_PCM_RAM, WRITE_REGISTER,
};
use sizes::STEMS;

// A number that is none of the kinds asks for nothing.
impl From<u8> for Asked {
    ghost from_gives = { λ kind asked. asked ≡ asked_of kind };

    #[tactic(auto, unfolding(crate::specs::Listing::asked_of))]
    fn from(kind: u8) -> Asked {
        match kind {
            WRITE_REGISTER => Asked::WriteRegister,
            WRITE_PCM_RAM => Asked::WritePcmRam,
            READ_REGISTER => Asked::Read,
            PEEK_REGISTER => Asked::Peek,
            CLOCK => Asked::Clock,
            SET_VERSION => Asked::SetVersion,
            _ => Asked::Nothing,
        }
    }
}

// As many calls as there are kinds, addresses and values.
pub(crate) fn call_count(kinds: &[u8], addresses: &[u32], values: &[u8]) -> usize
    ensures { result ≡ call_count kinds.now addresses.now values.now }
{
    kinds.len().min(addresses.len().min(values.len()))
}

// The frames that a call clocks.
// Kept as it is: a public function may not ask more of callers, and an `Asked` in place of the number would.
pub fn clocked_by(kind: u8, address: u32) -> usize
    ensures result { result ≡ clocked_as (asked_of kind) address }
    ensures upper_bound { result < 2 ^ 32 }
{
    match Asked::from(kind) {
        Asked::Clock => address as usize,
        _ => 0,
    }
}

// The same for calls that have one kind and one address each.
fn fills_by(kinds: &[u8], addresses: &[u32], stems: usize) -> bool
    requires { length kinds.now ≡ length addresses.now }
    ensures { result ≡ (stems == stems_per_frame * frames_asked kinds.now addresses.now 0 (length kinds.now)) }
{
    let mut rest = stems;
    for (&kind, &address) in kinds.iter().zip(addresses) {
        let needed = STEMS * clocked_by(kind, address);
        if rest < needed {
            return false;
        }
        rest -= needed;
    }
    rest == 0
}

// Whether a stem buffer of some length has 16 stems for each frame that a list clocks.
pub fn fills(kinds: &[u8], addresses: &[u32], values: &[u8], stems: usize) -> bool
    ensures { result ≡ (stems == stems_per_frame
        * frames_asked kinds.now addresses.now 0
        (call_count kinds.now addresses.now values.now)) }
{
    let count = call_count(kinds, addresses, values);
    fills_by(&kinds[..count], &addresses[..count], stems)
}
