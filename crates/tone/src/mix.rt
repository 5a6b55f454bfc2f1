// From a centred value to the sides of a frame. Every division goes toward zero.
// Kept as it is: an oscillator's value and a stream's differ in width, in divisor and in that a stream's is cut to 24 bits; one function for both needs a trait with
// all three, and is longer than these lines.
ghost use Rattle.std.specs.Prelude.{◌≡◌, ◌≤◌, unsigned_abs};
ghost use Rattle.num.specs.Integers.{up, down};
ghost use Rattle.num.specs.Integers.{clamp16 as clamped16};
ghost use Rattle.tone.specs.Mix.{stream_value, last_sample_of, stream_last_sample, volume_of, stream_volume_of, master_gain, high_nibble};
ghost use Rattle.tone.specs.Mix.{low_nibble, saturating_add, wrapping_add};
ghost use Rattle.tone.specs.Mix.{pan as pan_of};

// A stream's value has 24 bits; one beyond them counts as the nearest.
fn stream_value(q8: i32) -> i32
    ensures { result ≡ stream_value q8 }
{
    q8.clamp(-8388608, 8388607)
}

// The whole samples of a value, rounded down.
pub fn last_sample(q8: i16) -> i16
    ensures { result ≡ last_sample_of q8 }
{
    q8 >> 8
}

// A stream's value as the last sample that is kept.
pub fn stream_last_sample(q8: i32) -> i16
    ensures { result ≡ stream_last_sample q8 }
{
    (stream_value(q8) >> 8) as i16
}

// An oscillator's value at a volume.
pub fn volume_of(q8: i16, volume: u8) -> i16
    ensures result { result ≡ volume_of q8 volume }
    ensures bound { unsigned_abs result ≤ 8160 }
{
    ((q8 as i32) * (volume as i32) / 1024) as i16
}

// A stream's value at a volume.
pub fn stream_volume_of(q8: i32, volume: u8) -> i16
    ensures { result ≡ stream_volume_of q8 volume }
{
    (stream_value(q8) * (volume as i32) / 65280) as i16
}

// The sample after volume and master gain at once.
pub fn gained(q8: i16, volume: u8) -> i16
    ensures { result ≡ master_gain (volume_of q8 volume) }
{
    ((q8 as i32) * (volume as i32) / 8192) as i16
}

// A stream's value at a volume and the master gain.
pub fn stream_gained(q8: i32, volume: u8) -> i16
    ensures { result ≡ master_gain (stream_volume_of q8 volume) }
{
    (stream_value(q8) * (volume as i32) / 522240) as i16
}

// A sample at the master gain: halved, then a quarter of it.
pub fn apply_master_gain(sample: i16) -> i16
    ensures result { result ≡ master_gain sample }
    ensures bound { (up result ≤ 4095) × (down result ≤ 4096) }
{
    ((sample as i32) / 2 / 4) as i16
}

// The weights of the left and the right side.
pub fn high_nibble(panpot: u8) -> u8
    ensures result { result ≡ high_nibble panpot }
    ensures bound { result ≤ 15 }
{
    panpot >> 4
}

// The right weight of a panpot byte.
pub fn low_nibble(panpot: u8) -> u8
    ensures result { result ≡ low_nibble panpot }
    ensures bound { result ≤ 15 }
{
    panpot & 15
}

// 15 times 8,947,849 is 2^27 + 7: a product and a power of two divide by 15.
pub fn pan(sample: i16, weight: u8) -> i32
    ensures result { result ≡ pan_of sample weight }
    ensures result_bound { weight ≤ 15 → (up result ≤ up sample) × (down result ≤ down sample) }
{
    ((sample as i64) * ((weight as i64) * 8947849) / 134217728) as i32
}

// A sum clamped to 16 bits.
pub fn saturate_output(sample: i32) -> i16
    ensures { result ≡ clamped16 sample }
{
    num::clamp16(sample)
}

// A sum of 16 bits that saturates.
pub fn saturating_add(a: i16, b: i16) -> i16
    ensures { result ≡ saturating_add a b }
{
    a.saturating_add(b)
}

// The sum in two's complement of 32 bits.
pub fn wrapping_add(a: i32, b: i32) -> i32
    ensures { result ≡ wrapping_add a b }
{
    a.wrapping_add(b)
}
