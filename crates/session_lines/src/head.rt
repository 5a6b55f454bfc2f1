// The head of a session text: `S3W2`, the version's number and the RAM's length, parted by commas, and byte 10. Heads without
// the length are read too.
ghost use Rattle.std.specs.Prelude.{◌≡◌};
ghost use Rattle.line_fields.specs.Text.{written_of, put_of, written_number, room_refusal};
ghost use Rattle.decimal.specs.Read.{natural_at};
ghost use Rattle.session_lines.specs.Head.{head_text, has_magic as is_named, sized_head, behind_version, read_head, head_line_number, head_refusal};

use crate::SessionHead;
use line_fields::{FieldError, RoomError};
use output::Output;
use version::SguVersion;

// Writes the head of a chip over a RAM of a length, if there is room for it.
pub fn write_head(version: SguVersion, size: usize, out: &mut [u8]) -> Result<usize, RoomError>
    ensures result { result ≡ written_of out.old (head_text version size) }
    ensures out { out.new ≡ put_of out.old (head_text version size) }
    ensures number { written_number result ≡ room_refusal out.old (head_text version size) }
{
    let width = decimal::natural_width(size as u64);
    if out.len() < 8 + width {
        return Err(RoomError::TextBuffer);
    }
    let number = u8::from(version);
    let mut head = Output { buffer: out, at: 0 };
    head.put_bytes(b"S3W2,");
    head.put_byte(48 + number);
    head.put_byte(b',');
    decimal::put_natural(&mut head, size as u64);
    head.put_byte(10);
    Ok(head.at)
}

fn named(text: &[u8]) -> bool
    ensures { result ≡ is_named text.now }
{
    text.starts_with(b"S3W2")
}

// The head whose third field stands at `at`: an allowed RAM length.
fn sized(text: &[u8], version: SguVersion, at: usize) -> Result<SessionHead, FieldError>
    ensures { result ≡ sized_head text.now version (natural_at text.now at) }
{
    let (value, next) = decimal::take_natural(text, at).ok_or(FieldError::Malformed(3))?;
    let size = value as usize;
    if !tone::is_ram_length(size) {
        return Err(FieldError::Malformed(3));
    }
    if !line_fields::closed(text, next) {
        return Err(FieldError::Malformed(4));
    }
    Ok(SessionHead::Sized { version, size })
}

// The head whose version's numeral ends before `next`.
fn versioned(text: &[u8], version: SguVersion, next: usize) -> Result<SessionHead, FieldError>
    ensures { result ≡ behind_version text.now version next }
{
    if num::byte_at(text, next) == 44 {
        return sized(text, version, next + 1);
    }
    if !line_fields::closed(text, next) {
        return Err(FieldError::Malformed(3));
    }
    Ok(SessionHead::Version(version))
}

// What a head is: its version, the RAM's length too if it has three fields, or the first field at fault.
pub fn read_head(text: &[u8]) -> Result<SessionHead, FieldError>
    ensures result { result ≡ read_head text.now }
    ensures number { head_line_number result ≡ head_refusal text.now }
{
    if !named(text) {
        return Err(FieldError::Malformed(1));
    }
    if num::byte_at(text, 4) != 44 {
        if line_fields::ends_at(text, 4) {
            return Err(FieldError::Malformed(2));
        }
        return Err(FieldError::Malformed(1));
    }
    let (value, next) = decimal::take_natural(text, 5).ok_or(FieldError::Malformed(2))?;
    if (sizes::LAST_VERSION as u64) < value {
        return Err(FieldError::Malformed(2));
    }
    versioned(text, SguVersion::from(value), next)
}
