// A line written.
ghost use Rattle.std.specs.Prelude.{◌≡◌, leb, length};
ghost use Rattle.output.specs.Output.{Put, Puts};
ghost use Rattle.line_fields.specs.Text.{field_text, part_text, line_text, written_of, put_of, written_number, room_refusal};

use crate::RoomError;
use crate::table::{is_sample, sample};
use output::Output;

// Puts field k's numeral.
fn put_field(out: &mut Output<'_>, k: usize, number: u64)
    ensures { Puts out.old out.new (field_text k number) }
{
    if is_sample(k) {
        return decimal::put_number(out, sample(number) as i64);
    }
    decimal::put_natural(out, number)
}

// The same with the comma before it.
fn put_part(out: &mut Output<'_>, k: usize, number: u64)
    ensures { Puts out.old out.new (part_text k number) }
{
    if k == 0 {
        return put_field(out, k, number);
    }
    out.put_byte(44);
    put_field(out, k, number)
}

fn field_width(k: usize, number: u64) -> usize
    ensures { result ≡ length (field_text k number) }
{
    if is_sample(k) {
        return decimal::number_width(sample(number) as i64);
    }
    decimal::natural_width(number)
}

fn part_width(k: usize, number: u64) -> usize
    ensures { result ≡ length (part_text k number) }
{
    if k == 0 {
        return field_width(k, number);
    }
    field_width(k, number) + 1
}

// Whether the line of some numbers has at most as many bytes as there is room for.
fn fits(numbers: &[u64], room: usize) -> bool
    ensures { result ≡ leb (length (line_text numbers.now)) room }
{
    let mut left = room;
    for (k, &number) in numbers.iter().enumerate() {
        let width = part_width(k, number);
        if left < width {
            return false;
        }
        left -= width;
    }
    0 < left
}

// Puts the line of some numbers into out, as far as there is room, and answers the place behind it, at most out's end.
pub fn put_line(numbers: &[u64], out: &mut [u8]) -> usize
    ensures { Put out.old out.new 0 (line_text numbers.now) result }
{
    let mut line = Output { buffer: out, at: 0 };
    for (k, &number) in numbers.iter().enumerate() {
        put_part(&mut line, k, number);
    }
    line.put_byte(10);
    line.at
}

// Writes the line of some numbers, if there is room for it.
pub fn write_line(numbers: &[u64], out: &mut [u8]) -> Result<usize, RoomError>
    ensures result { result ≡ written_of out.old (line_text numbers.now) }
    ensures out { out.new ≡ put_of out.old (line_text numbers.now) }
    ensures number { written_number result ≡ room_refusal out.old (line_text numbers.now) }
{
    if fits(numbers, out.len()) {
        return Ok(put_line(numbers, out));
    }
    Err(RoomError::TextBuffer)
}
