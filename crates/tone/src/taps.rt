// Places in a wavetable, and two taps blended by a fraction. Values are in Q8.8.
ghost use Rattle.std.specs.Prelude.{◌≡◌, ◌≤◌};
ghost use Rattle.num.specs.Integers.{up, down};
ghost use Rattle.tone.specs.Taps.{wavetable_mask, wave_index, wave_after, wave_cycle, raised_sample, blend_samples};
ghost use Rattle.tone.specs.Taps.{raised as raised_of, blend as blend_of};

// One less than the samples of a wavetable: 255, 127, 63 or 31 by the low two bits of sample control.
pub fn wavetable_mask(control: u8) -> u8
    ensures { result ≡ wavetable_mask control }
{
    ((256u32 >> (control & 3)) - 1) as u8
}

// A position within a wavetable's cycle.
pub fn wave_index(position: u64, mask: u8) -> u8
    ensures { result ≡ wave_index position mask }
{
    (position & (mask as u64)) as u8
}

// The place of the second tap.
pub fn wave_after(index: u8, mask: u8) -> u8
    ensures { result ≡ wave_after index mask }
{
    (((index as u32) + 1) & (mask as u32)) as u8
}

// The phase of a whole cycle.
pub fn wave_cycle(mask: u8) -> u64
    ensures { result ≡ wave_cycle mask }
{
    ((mask as u64) + 1) << 29
}

// A byte as a value with 8 fraction bits.
pub fn raised(sample: u8) -> u16
    ensures { result ≡ raised_of sample }
{
    (sample as u16) * 256
}

// Two bytes blended by a fraction.
pub fn blend(current: u8, next: u8, fraction: u8) -> u16
    ensures { result ≡ blend_of current next fraction }
{
    let f = fraction as u32;
    ((current as u32) * (256 - f) + (next as u32) * f) as u16
}

// The same of a stream's samples.
// Kept as it is: one function for bytes and samples needs a trait with both conversions; this line is shorter.
pub fn raised_sample(sample: i16) -> i32
    ensures result { result ≡ raised_sample sample }
    ensures bound { (up result ≤ 8388607) × (down result ≤ 8388608) }
{
    (sample as i32) * 256
}

// Two samples blended by a fraction.
pub fn blend_samples(current: i16, next: i16, fraction: u8) -> i32
    ensures result { result ≡ blend_samples current next fraction }
    ensures bound { (up result ≤ 8388607) × (down result ≤ 8388608) }
{
    let f = fraction as u32;
    (current as i32) * ((256 - f) as i32) + (next as i32) * (f as i32)
}
