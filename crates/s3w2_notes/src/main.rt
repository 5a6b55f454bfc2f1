// s3w2_notes: prints the frequency of each sum of note and semitones, -128 to 382, on a line `sum,frequency`.
#![tactic(auto)]

ghost use Rattle.std.specs.Prelude.{◌≡◌, ◌<◌};
ghost use Rattle.output.specs.Output.{Puts};
ghost use Rattle.notes.specs.Pitches.{sums, sum_at};
ghost use Rattle.s3w2_notes.specs.Lines.{sum_line, LinePut, LinesPut};

use decimal::{put_natural, put_number};
use output::Output;

// The descriptors of standard output and standard error.
const STDOUT: i32 = 1;

const STDERR: i32 = 2;

// A note and semitones.
#[derive(Clone, Copy)]
struct Pair {
    note: u8,
    semitones: i8,
}

// A pair whose sum is k - 128.
fn pair_of(k: usize) -> Pair
    requires { k < sums }
    ensures { sum_at result.note result.semitones ≡ k }
{
    if k < 128 {
        return Pair {
            note: 0,
            semitones: ((k as i32) - 128) as i8,
        };
    }
    if k < 384 {
        return Pair {
            note: (k - 128) as u8,
            semitones: 0,
        };
    }
    Pair {
        note: 255,
        semitones: (k - 383) as i8,
    }
}

// Puts a sum, a comma, a frequency and byte 10, as far as there is room.
fn put_numbers(out: &mut Output<'_>, sum: i64, frequency: u16)
    ensures { Puts out.old out.new (sum_line sum frequency) }
{
    put_number(&mut *out, sum);
    out.put_byte(44);
    put_natural(&mut *out, frequency as u64);
    out.put_byte(10);
}

// Puts the line of the sum k - 128.
fn put_line(out: &mut Output<'_>, k: usize)
    requires { k < sums }
    ensures { LinePut out.old out.new k }
{
    let p = pair_of(k);
    let frequency = notes::frequency(p.note, p.semitones);
    put_numbers(out, (k as i64) - 128, frequency);
}

// Puts a line for each sum, and answers the place behind them.
fn put_lines(buffer: &mut [u8]) -> usize
    ensures { LinesPut buffer.old buffer.new sums result }
{
    let mut out = Output { buffer, at: 0 };
    for k in 0..notes::SUMS {
        put_line(&mut out, k);
    }
    out.at
}

// 511 lines of at most 10 bytes and byte 10 have room in 8,192.
fn main() {
    let mut text = [0u8; 8192];
    let end = put_lines(&mut text);
    if !io::write_all(STDOUT, num::part(&text, 0, end)) {
        io::write_all(STDERR, b"s3w2-notes: the output cannot be written\n");
    }
}
