// The noise generator's shift register.
ghost use Rattle.std.specs.Prelude.{◌≡◌, ◌^◌, ◌<◌};
ghost use Rattle.tone.specs.Noise.{plain_bit, custom_taps, tap_bit, next_lfsr, noise_value};
ghost use Rattle.tone.specs.Noise.{shifted as shifted_by};

fn plain_bit(lfsr: u32) -> u32
    ensures { (result ≡ plain_bit lfsr) × (result < 2) }
{
    (lfsr ^ (lfsr >> 1)) & 1
}

fn custom_taps(param_1: u16, param_2: u16) -> u32
    ensures { (result ≡ custom_taps param_1 param_2) × (result < 2 ^ 23) }
{
    (((param_1 as u32) << 16) | (param_2 as u32)) & 0x7F_FFFF
}

// The parity of the bits that the taps select.
fn tap_bit(lfsr: u32, taps: u32) -> u32
    requires { taps < 2 ^ 23 }
    ensures { (result ≡ tap_bit lfsr taps) × (result < 2) }
{
    u32::count_ones(lfsr & taps) & 1
}

// One bit down, and the new bit at 22; the register is not cut to 23 bits.
fn shifted(lfsr: u32, bit: u32) -> u32
    requires { bit < 2 }
    ensures { result ≡ shifted_by lfsr bit }
{
    (lfsr >> 1) | (bit << 22)
}

// The LFSR one shift on.
pub fn next_lfsr(lfsr: u32, custom: bool, param_1: u16, param_2: u16) -> u32
    ensures { result ≡ next_lfsr lfsr custom param_1 param_2 }
{
    if custom {
        return shifted(lfsr, tap_bit(lfsr, custom_taps(param_1, param_2)));
    }
    shifted(lfsr, plain_bit(lfsr))
}

// The value by the lowest bit: 255 or 0, in Q8.8.
pub fn noise_value(lfsr: u32) -> u16
    ensures { result ≡ noise_value lfsr }
{
    ((lfsr & 1) * 65280) as u16
}
