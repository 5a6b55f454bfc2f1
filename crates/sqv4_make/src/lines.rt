// Lines without their byte 10.
ghost use Rattle.std.specs.Prelude.{◌≡◌};
ghost use Rattle.adpcm.specs.Codes.{variant_of};
ghost use Rattle.sqv4_make.specs.Lines.{Within, numeral_at, behind_comma, saying_of, levels_at, first_line, sample_line};

use adpcm::Variant;
use sqv4_writer::Terms;

// The numeral at a place, of a number that is at most `most`, and the place behind it.
#[tactic(auto, unfolding(crate::specs::Lines::numeral_at))]
fn field(line: &[u8], at: usize, most: u32) -> Option<(u32, usize)>
    ensures { (result ≡ numeral_at line.now at most) × Within most result }
{
    let (value, next) = decimal::take_natural(line, at)?;
    if (most as u64) < value {
        return None;
    }
    Some((value as u32, next))
}

// The same behind a comma.
#[tactic(auto, unfolding(crate::specs::Lines::behind_comma))]
fn behind_comma(line: &[u8], at: usize, most: u32) -> Option<(u32, usize)>
    ensures { (result ≡ behind_comma line.now at most) × Within most result }
{
    if num::byte_at(line, at) != 44 {
        return None;
    }
    field(line, at + 1, most)
}

// The terms, once the variant's byte is taken for a variant.
fn saying(number: u8, rate: u32, volume: u8, index: u8) -> Option<Terms>
    ensures { result ≡ saying_of (variant_of number) rate volume index }
{
    let variant = Variant::try_from(number).ok()?;
    Some(Terms {
        variant,
        rate,
        volume,
        index,
    })
}

// The volume and the step index, each behind a comma, to the line's end.
#[tactic(auto, unfolding(crate::specs::Lines::levels_at))]
fn levels(line: &[u8], at: usize, number: u8, rate: u32) -> Option<Terms>
    ensures { result ≡ levels_at line.now at number rate }
{
    let (volume, next) = behind_comma(line, at, 255)?;
    let (index, end) = behind_comma(line, next, 255)?;
    if end != line.len() {
        return None;
    }
    saying(number, rate, volume as u8, index as u8)
}

// `variant,rate,volume,index`
#[tactic(auto, unfolding(crate::specs::Lines::first_line))]
pub(crate) fn first_line(line: &[u8]) -> Option<Terms>
    ensures { result ≡ first_line line.now }
{
    let (number, next) = field(line, 0, 255)?;
    let (rate, end) = behind_comma(line, next, 0xffff_ffff)?;
    levels(line, end, number as u8, rate)
}

// A sample, as sqv4-dump prints it.
#[tactic(auto, unfolding(crate::specs::Lines::sample_line))]
pub(crate) fn sample_line(line: &[u8]) -> Option<i16>
    ensures { result ≡ sample_line line.now }
{
    let (value, next) = decimal::take_number(line, 0)?;
    if next != line.len() {
        return None;
    }
    i16::try_from(value).ok()
}
