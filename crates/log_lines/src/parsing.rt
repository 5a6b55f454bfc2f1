// A line, without its closing byte 10, taken apart.
ghost use Rattle.std.specs.Prelude.{◌≡◌, ◌≢◌, ℕ};
ghost use Rattle.log_lines.specs.Lines.{Within, one_at, two_at, addressed, clock_of, parsed_line, number_of, bad_number};

use crate::{Line, LineFault};

// The numeral from `at` to the end, of a number that is at most `most`.
fn one_number(text: &[u8], at: usize, most: u32) -> Option<u32>
    ensures result { result ≡ one_at text.now at most }
    ensures within { Within most result }
{
    let (value, next) = decimal::take_natural(text, at)?;
    if next != text.len() {
        return None;
    }
    if (most as u64) < value {
        return None;
    }
    Some(value as u32)
}

// An address and a byte, from `at` to the end.
fn two_numbers(text: &[u8], at: usize) -> Option<(u32, u8)>
    ensures { result ≡ two_at text.now at }
{
    let (value, next) = decimal::take_natural(text, at)?;
    let address = u32::try_from(value).ok()?;
    if num::byte_at(text, next) != 44 {
        return None;
    }
    let byte = one_number(text, next + 1, 255)?;
    Some((address, byte as u8))
}

// A line of an address that is a register's, if there is such a register. An `M` line (77) names a byte of the RAM.
fn mapped(address: u32, line: Line) -> Result<Line, LineFault>
    ensures { (kind : ℕ) → kind ≢ 77 → result ≡ addressed kind address line }
{
    if (address as usize) < sizes::REGISTERS_END {
        return Ok(line);
    }
    Err(LineFault::Unmapped)
}

fn clock_of(one: Option<u32>) -> Result<Line, LineFault>
    ensures { result ≡ clock_of one }
{
    let frames = one.ok_or(LineFault::Malformed)?;
    if frames == 0 {
        return Err(LineFault::Malformed);
    }
    Ok(Line::Clock(frames))
}

impl LineFault {
    // The number of a bad line (docs/SPECIFICATION.md, section 12).
    pub fn number(self) -> u8
        ensures { result ≡ number_of self }
    {
        match self {
            LineFault::Malformed => 17,
            LineFault::Unmapped => 27,
            LineFault::Late => 18,
            LineFault::Crowded => 19,
        }
    }
}

// The number of a bad line (docs/SPECIFICATION.md, section 12); 0 where it is none.
pub fn number(line: Result<Line, LineFault>) -> u8
    ensures { result ≡ bad_number line }
{
    match line {
        Ok(_) => 0,
        Err(fault) => fault.number(),
    }
}

// What a line asks for.
pub fn parse(text: &[u8]) -> Result<Line, LineFault>
    ensures { result ≡ parsed_line text.now }
{
    if num::byte_at(text, 1) != 44 {
        return Err(LineFault::Malformed);
    }
    match num::byte_at(text, 0) {
        87 => {
            let (address, value) = two_numbers(text, 2).ok_or(LineFault::Malformed)?;
            mapped(address, Line::Write { address, value })
        }
        77 => {
            let (address, value) = two_numbers(text, 2).ok_or(LineFault::Malformed)?;
            Ok(Line::WriteRam { address, value })
        }
        82 => {
            let address = one_number(text, 2, 0xFFFF_FFFF).ok_or(LineFault::Malformed)?;
            mapped(address, Line::Read(address))
        }
        80 => {
            let address = one_number(text, 2, 0xFFFF_FFFF).ok_or(LineFault::Malformed)?;
            mapped(address, Line::Peek(address))
        }
        67 => clock_of(one_number(text, 2, 1000)),
        86 => {
            let version = one_number(text, 2, sizes::LAST_VERSION).ok_or(LineFault::Malformed)?;
            Ok(Line::Version(version))
        }
        _ => Err(LineFault::Malformed),
    }
}
