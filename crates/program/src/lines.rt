// Standard input line by line.
ghost use Rattle.std.specs.Prelude.{◌≡◌, ◌<◌, ◌≤◌, length, slice_index, IfSome, IfNone};
ghost use Rattle.program.specs.Reading.{Open, LineIn};

use crate::BufferLine;

// The place of the first byte 10 from a place on.
fn newline(text: &[u8], from: usize) -> Option<usize>
    ensures some { IfSome result (λ to. (from ≤ to) × (to < length text.now) × (slice_index text.now to ≡ 10)
        × Open text.now from to) }
    ensures none { IfNone result (Open text.now from (length text.now)) }
{
    Some(from + num::tail(text, from).iter().position(|byte| *byte == 10)?)
}

// The line that begins at a place of what has been read, if its end has been read.
fn line_at(buffer: &[u8], from: usize, filled: usize) -> Option<BufferLine>
    ensures line { LineIn buffer.now result }
{
    let read = filled.min(buffer.len());
    let to = newline(&buffer[..read], from)?;
    Some(BufferLine {
        from,
        to,
        filled: read,
    })
}

// The next line of standard input behind a line of the buffer, or the first. Bytes that no line has ended are moved to the buffer's
// front, and more is read behind them; a line that has no room in the buffer ends the input, and so does one that is not closed.
pub fn next_line(
    rt: &HostRuntime,
    buffer: &mut [u8],
    before: Option<BufferLine>,
) -> Option<BufferLine>
    ensures line { LineIn buffer.new result }
{
    let (mut from, mut filled) = match before {
        Some(line) => (line.to.wrapping_add(1), line.filled),
        None => (0, 0),
    };
    for _ in 0..buffer.len() {
        if let Some(line) = line_at(&*buffer, from, filled) {
            return Some(line);
        }
        let kept = crate::keep(&mut *buffer, from, filled);
        filled = crate::read_behind(rt, &mut *buffer, kept).ok()??;
        from = 0;
    }
    line_at(&*buffer, from, filled)
}
