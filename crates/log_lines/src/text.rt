// What a log prints, and the largest frame values.
ghost use Rattle.std.specs.Prelude.{◌≡◌, ◌*◌, ◌≤◌, min, length};
ghost use Rattle.output.specs.Output.{Puts};
ghost use Rattle.log_lines.specs.Texts.{comma_field, pair_line, frame_line, frame_lines, read_back_line, bad_line, peak_line, peak_of};

use decimal::{put_natural, put_number};
use output::Output;

// Puts a number behind a comma.
fn put_field(out: &mut Output<'_>, value: i64)
    ensures { Puts out.old out.new (comma_field value) }
{
    out.put_byte(44);
    put_number(out, value);
}

// Puts two numbers behind a word, and byte 10.
fn put_pair(out: &mut Output<'_>, word: &[u8], a: i64, b: i64)
    ensures { Puts out.old out.new (pair_line word.now a b) }
{
    out.put_bytes(word);
    put_field(&mut *out, a);
    put_field(&mut *out, b);
    out.put_byte(10);
}

// Puts the line of a frame: `F`, left, right, each clamped.
fn put_frame(out: &mut Output<'_>, left: i32, right: i32)
    ensures { Puts out.old out.new (frame_line left right) }
{
    put_pair(
        out,
        b"F",
        num::clamp16(left) as i64,
        num::clamp16(right) as i64,
    );
}

// Puts a line for each frame of two sides, as many as the shorter has; the sides are not clamped, the lines are.
pub fn put_frames(out: &mut Output<'_>, left: &[i32], right: &[i32])
    ensures put { Puts out.old out.new
        (frame_lines left.now right.now (min (length left.now) (length right.now))) }
    ensures bound { length (frame_lines left.now right.now
        (min (length left.now) (length right.now))) ≤ 16 * min (length left.now) (length right.now) }
{
    out.at = out.at.min(out.buffer.len());
    for (&l, &r) in left.iter().zip(right) {
        put_frame(&mut *out, l, r);
    }
}

// Puts a letter, the address and the byte: what a line `R` (82) or `P` (80) prints.
pub fn put_read_back(out: &mut Output<'_>, letter: u8, address: u32, byte: u8)
    ensures put { Puts out.old out.new (read_back_line letter address byte) }
    ensures bound { length (read_back_line letter address byte) ≤ 17 }
{
    put_pair(out, &[letter], address as i64, byte as i64);
}

// Puts the line that tells of a bad one: `bad`, which line it is, the number of why.
pub fn put_bad(out: &mut Output<'_>, line: u64, why: u8)
    ensures put { Puts out.old out.new (bad_line line why) }
    ensures bound { length (bad_line line why) ≤ 29 }
{
    out.put_bytes(b"bad,");
    put_natural(&mut *out, line);
    out.put_byte(44);
    put_natural(&mut *out, why as u64);
    out.put_byte(10);
}

// Puts the last line: `peak`, left, right.
pub fn put_peak(out: &mut Output<'_>, left: u32, right: u32)
    ensures { Puts out.old out.new (peak_line left right) }
{
    put_pair(out, b"peak", left as i64, right as i64);
}

// The largest of a number and a side's sizes.
pub fn peak(before: u32, side: &[i32]) -> u32
    ensures { result ≡ peak_of before side.now (length side.now) }
{
    let mut largest = before;
    for &value in side {
        largest = largest.max(value.unsigned_abs());
    }
    largest
}
