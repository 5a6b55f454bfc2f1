// A line's fields.
ghost use Rattle.std.specs.Prelude.{◌≤◌, length};

use decimal::Numeral;
use version::SguVersion;

// The field behind the comma at a place.
fn take(text: &[u8], at: usize) -> Numeral<u64> {
    if num::byte_at(text, at) != b',' {
        return None;
    }
    if num::byte_at(text, at + 1) != b'-' {
        return decimal::take_natural(text, at + 1);
    }
    let (value, next) = decimal::take_natural(text, at + 2)?;
    Some((value.wrapping_neg(), next))
}

// Puts the fields behind the line's letter, as far as there is room, and answers how many fields there are with it.
pub(crate) fn parse(text: &[u8], f: &mut [u64]) -> usize
    ensures { result ≤ length f.new }
{
    let mut at = 1;
    for (k, field) in f.iter_mut().enumerate().skip(1) {
        let Some((value, next)) = take(text, at) else {
            return k;
        };
        *field = value;
        at = next;
    }
    f.len()
}

// A field; one that is not there is 0.
pub(crate) fn long(line: &[u64], k: usize) -> u64 {
    line.get(k).copied().unwrap_or(0)
}

// The same by its type.
pub(crate) fn size(line: &[u64], k: usize) -> usize {
    long(line, k) as usize
}

pub(crate) fn word(line: &[u64], k: usize) -> u32 {
    (long(line, k) % 4294967296) as u32
}

pub(crate) fn short(line: &[u64], k: usize) -> u16 {
    (long(line, k) % 65536) as u16
}

pub(crate) fn byte(line: &[u64], k: usize) -> u8 {
    (long(line, k) % 256) as u8
}

pub(crate) fn letter(line: &[u64]) -> u8 {
    byte(line, 0)
}

pub(crate) fn version(line: &[u64]) -> SguVersion {
    SguVersion::from(long(line, 1))
}
