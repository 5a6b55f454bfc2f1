// Small total helpers on numbers and slices that more than one crate needs.
#![tactic(auto)]

ghost use Rattle.std.specs.Prelude.{◌≡◌, ◌-◌, ◌<◌, ◌^◌, min, nat_abs, get_or, drop};
ghost use Rattle.std.specs.Int.{w16};
ghost use Rattle.std.proofs.Common.{to_z, of_z};
ghost use Rattle.num.specs.Integers.{clamp16 as clamped16, signed};
ghost use Rattle.num.specs.Lists.{part as part_of};

// A size with a sign.
pub fn with_sign(negative: bool, size: u16) -> i32
    ensures result { result ≡ signed negative size }
    ensures result_bound { nat_abs result < 2 ^ 16 }
{
    let n = size as i32;
    if negative { -n } else { n }
}

// The nearest 16-bit number.
pub fn clamp16(x: i32) -> i16
    ensures { result ≡ clamped16 x }
{
    x.clamp(-32768, 32767) as i16
}

// 16 bits read as a two's complement number, and back.
pub fn signed16(bits: u16) -> i16
    ensures { result ≡ to_z w16 bits }
{
    bits.cast_signed()
}

// The 16 bits of a signed number.
pub fn bits16(x: i16) -> u16
    ensures { result ≡ of_z w16 x }
{
    x.cast_unsigned()
}

// The byte at an index, and 0 past the end.
pub fn byte_at(s: &[u8], i: usize) -> u8
    ensures { result ≡ get_or s.now i 0 }
{
    s.get(i).copied().unwrap_or(0)
}

// The bytes from an index on: none past the end.
pub fn tail(s: &[u8], from: usize) -> &[u8]
    ensures { result.now ≡ drop from s.now }
{
    let at = from.min(s.len());
    &s[at..]
}

// The bytes from `from` to before `to`, as far as there are any.
pub fn part(s: &[u8], from: usize, to: usize) -> &[u8]
    ensures { result.now ≡ part_of s.now from (to - from) }
{
    let end = to.min(s.len());
    let start = from.min(end);
    &s[start..end]
}
