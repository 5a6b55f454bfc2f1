// A line read.
ghost use Rattle.std.specs.Prelude.{◌≡◌, ◌≤◌, ◌<◌, ◌-◌};
ghost use Rattle.std.proofs.lemmas.List.Edits.{sets};
ghost use Rattle.line_fields.specs.Reading.{natural_of, sample_of16, field_at, ends_at, part_at, parts_at, closed_at, queue_part_at};
ghost use Rattle.line_fields.specs.Reading.{read_line, numbers_in, parts_of, close_of, queue_fields, fields_of, line_numbers};
ghost use Rattle.line_fields.specs.Reading.{part_number, fields_number, taken_refusal, line_refusal};

use crate::FieldError;
use crate::table::{is_sample, most, put_number};
use decimal::Numeral;

// A field's number and the place behind it.
type Part = Result<(u64, usize), FieldError>;

fn natural_of(field: usize, greatest: u64, taken: Numeral<u64>) -> Part
    ensures { result ≡ natural_of field greatest taken }
{
    let (value, next) = taken.ok_or(FieldError::Malformed(field))?;
    if greatest < value {
        return Err(FieldError::Malformed(field));
    }
    Ok((value, next))
}

fn sample_of(field: usize, taken: Numeral<i64>) -> Part
    ensures { result ≡ sample_of16 field taken }
{
    let (value, next) = taken.ok_or(FieldError::Malformed(field))?;
    let sample = i16::try_from(value)
        .ok()
        .ok_or(FieldError::Malformed(field))?;
    Ok((num::bits16(sample) as u64, next))
}

// A line's text, and whether the version has FIFO voices.
#[derive(Clone, Copy)]
struct Line<'a> {
    fifo: bool,
    text: &'a [u8],
}

impl Line<'_> {
    // The numeral of field k.
    fn field_at(self, k: usize, at: usize) -> Part
        requires { k < 2330 }
        ensures { result ≡ field_at self.entry.fifo k self.entry.text.now at }
    {
        if is_sample(k) {
            return sample_of(k + 1, decimal::take_number(self.text, at));
        }
        natural_of(
            k + 1,
            most(self.fifo, k),
            decimal::take_natural(self.text, at),
        )
    }

    // Field k with the comma before it.
    fn part_at(self, k: usize, at: usize) -> Part
        requires { k < 2330 }
        ensures result { result ≡ part_at self.entry.fifo k self.entry.text.now at }
        ensures number { part_number result ≡ part_number (part_at self.entry.fifo k self.entry.text.now at) }
    {
        if k == 0 {
            return self.field_at(k, at);
        }
        if num::byte_at(self.text, at) == 44 {
            return self.field_at(k, at + 1);
        }
        if ends_at(self.text, at) {
            return Err(FieldError::Malformed(k + 1));
        }
        Err(FieldError::Malformed(k))
    }

    // The fields from field `from` to before field `to`.
    fn take_parts(
        self,
        at: usize,
        from: usize,
        to: usize,
        numbers: &mut [u64],
    ) -> Result<usize, FieldError>
        requires { to ≤ 2330 }
        ensures result { result ≡ parts_of (parts_at self.entry.fifo self.entry.text.now (to - from) from at) }
        ensures numbers { numbers.new
            ≡ sets numbers.old from (numbers_in (parts_at self.entry.fifo self.entry.text.now (to - from) from at)) }
        ensures number { fields_number result
            ≡ taken_refusal (parts_at self.entry.fifo self.entry.text.now (to - from) from at) }
    {
        let mut end = at;
        for k in from..to {
            let (number, next) = self.part_at(k, end)?;
            put_number(numbers, k, number);
            end = next;
        }
        Ok(end)
    }

    // The queue's count and samples, and the line's end.
    fn read_queue(self, at: usize, numbers: &mut [u64]) -> Result<usize, FieldError>
        ensures result { result
            ≡ queue_fields self.entry.text.now (queue_part_at self.entry.fifo self.entry.text.now at) }
        ensures numbers { numbers.new
            ≡ sets numbers.old 281 (numbers_in (queue_part_at self.entry.fifo self.entry.text.now at)) }
    {
        let (count, next) = self.part_at(281, at)?;
        put_number(numbers, 281, count);
        let to = 282 + (count as usize);
        let samples = self.take_parts(next, 282, to, numbers);
        close(self.text, samples, to)
    }
}

// Whether a line or the text ends at a place.
pub fn ends_at(text: &[u8], at: usize) -> bool
    ensures { result ≡ ends_at text.now at }
{
    if at < text.len() {
        return text[at] == 10;
    }
    true
}

// Whether nothing but one byte 10 stands from a place on.
pub fn closed(text: &[u8], at: usize) -> bool
    ensures { result ≡ closed_at text.now at }
{
    if at < text.len() {
        if text[at] == 10 {
            return text.len() == at + 1;
        }
    }
    false
}

// What a line is whose fields are taken.
fn close(text: &[u8], taken: Result<usize, FieldError>, count: usize) -> Result<usize, FieldError>
    requires { count ≤ 2330 }
    ensures { result ≡ close_of text.now count taken }
{
    let next = taken?;
    if closed(text, next) {
        return Ok(count);
    }
    Err(FieldError::Malformed(count + 1))
}

// Reads a voice line: its numbers, as far as they are in order, are put into a buffer as far as there is room.
pub fn read_line(fifo: bool, text: &[u8], numbers: &mut [u64]) -> Result<usize, FieldError>
    ensures result { result ≡ fields_of (read_line fifo text.now) }
    ensures numbers { numbers.new ≡ sets numbers.old 0 (line_numbers (read_line fifo text.now)) }
    ensures number { fields_number result ≡ line_refusal (read_line fifo text.now) }
{
    let line = Line { fifo, text };
    let next = line.take_parts(0, 0, 281, numbers)?;
    line.read_queue(next, numbers)
}
