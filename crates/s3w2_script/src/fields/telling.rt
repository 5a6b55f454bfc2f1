// What lines tell of no chip.
use crate::fields::reading::{byte, letter, word};
use crate::fields::{Figures, writing};
use version::SguVersion;

// The version that the line's bytes name, 64 of them at most; 9 for none.
fn named(line: &[u64]) -> u8 {
    let mut name = [0u8; 64];
    for (letter, field) in name.iter_mut().zip(line.iter().skip(1)) {
        *letter = (*field % 256) as u8;
    }
    let count = line.len().saturating_sub(1);
    match SguVersion::parse(num::part(&name, 0, count)) {
        Some(version) => u8::from(version),
        None => 9,
    }
}

fn summed(sum: u32, x: u8) -> u32 {
    (((sum as u64) * 31 + (x as u64)) % 4294967296) as u32
}

// A sum over the RAM.
fn sum_of(ram: &[u8]) -> u32 {
    let mut sum = 0u32;
    for &x in ram {
        sum = summed(sum, x);
    }
    sum
}

fn absolute(line: &[u64]) -> usize {
    tone::convert_to_absolute_channel_address(byte(line, 1), byte(line, 2), byte(line, 3))
}

fn saturated(line: &[u64]) -> u64 {
    writing::sample_bits(tone::saturate_output(word(line, 1).cast_signed()))
}

fn number_told(line: &[u64], ram: &[u8]) -> u64 {
    match letter(line) {
        b'A' => absolute(line) as u64,
        b'O' => saturated(line),
        b'U' => named(line) as u64,
        _ => sum_of(ram) as u64,
    }
}

// What a line tells: a number, or of a version two.
pub(crate) fn told(line: &[u64], ram: &[u8]) -> Figures {
    if letter(line) != b'u' {
        return Figures::One(number_told(line, ram));
    }
    let version = crate::fields::reading::version(line);
    Figures::Two(version.core_count() as u64, u64::from(version.has_34si22()))
}
