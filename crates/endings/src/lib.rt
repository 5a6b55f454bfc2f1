// Which of the voices were on and are so no more, as a set: bit n for voice n.
#![tactic(auto)]

ghost use Rattle.std.specs.Prelude.{◌≡◌, false, ◌*◌, ◌≤◌, get_or};
ghost use Rattle.sizes.specs.Sizes.{num_channels};
ghost use Rattle.endings.specs.Sets.{off, bit_of, set_of};

use sizes::NUM_CHANNELS;

// Whether something that was on is so no more.
pub fn turned_off(was: bool, is: bool) -> bool
    ensures { result ≡ off was is }
{
    was & !is
}

// A bit where something that was on is so no more, 0 otherwise.
fn bit_where_off(was: bool, is: bool, bit: u16) -> u16
    ensures { (result ≡ bit_of (off was is) * bit) × (result ≤ bit) }
{
    if turned_off(was, is) {
        return bit;
    }
    0
}

// The voices that were on and are so no more.
pub fn ended(was: [bool; NUM_CHANNELS], is: [bool; NUM_CHANNELS]) -> u8
    ensures set { result ≡ set_of num_channels (λ ch. off (get_or was ch false) (get_or is ch false)) }
{
    let mut set = 0u16;
    let mut bit = 1u16;
    // Kept as it is: over the two arrays zipped the body is as long, and what the loop keeps has to speak of the iterator.
    for ch in 0usize..8 {
        set += bit_where_off(was[ch], is[ch], bit);
        bit *= 2;
    }
    set as u8
}
