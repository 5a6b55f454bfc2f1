// Addresses of the eight blocks of 32.
ghost use Rattle.std.specs.Prelude.{◌≡◌, ◌<◌};
ghost use Rattle.voices.specs.Addresses.{channel_of, offset_of};

// The channel whose block an address lies in.
pub fn channel_of(address: u32) -> usize
    ensures { (result ≡ channel_of address) × (result < 8) }
{
    ((address >> 5) & 7) as usize
}

// Its offset there.
pub fn offset_of(address: u32) -> u8
    ensures { result ≡ offset_of address }
{
    (address & 31) as u8
}
