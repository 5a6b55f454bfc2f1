// Bytes between standard input, the making and standard output.
ghost use Rattle.std.specs.Prelude.{◌≡◌, ◌≤◌, length};
ghost use Rattle.sqv4_make.specs.Making.{most_samples, most_bytes};

use crate::Progress;
use crate::making::{begun, feed, is_whole, make};
use log_lines::LineFault;
use output::Output;
use sqv4_writer::{StreamError, Terms};
use std::io::Read;

// The descriptors of standard output and standard error.
const STDOUT: i32 = 1;

const STDERR: i32 = 2;

fn complain(reason: &[u8]) {
    io::write_all(STDERR, b"sqv4-make: ");
    io::write_all(STDERR, reason);
}

fn write(bytes: &[u8]) {
    if !io::write_all(STDOUT, bytes) {
        complain(b"the output cannot be written\n");
    }
}

// Writes the line that is put.
fn write_line<F: FnOnce(&mut Output<'_>)>(put: F)
    requires { F.IsAlwaysCallable put }
{
    let mut text = [0u8; 32];
    let mut out = Output {
        buffer: &mut text,
        at: 0,
    };
    put(&mut out);
    let end = out.at;
    write(num::part(&text, 0, end));
}

// Puts `bad`, the number of the line behind those that were whole, 17.
fn put_bad(out: &mut Output<'_>, lines: u64) {
    log_lines::put_bad(out, lines.wrapping_add(1), LineFault::Malformed.number());
}

// Puts `refused` and the number.
fn put_refused(out: &mut Output<'_>, error: StreamError) {
    out.put_bytes(b"refused,");
    decimal::put_natural(&mut *out, error.number() as u64);
    out.put_byte(10);
}

// Writes the file of all samples, or why there is none.
fn write_made(lines: u64, terms: Terms, samples: &[i16], file: &mut [u8])
    requires { (1 ≤ lines) × (length samples.now ≡ most_samples) × (length file.old ≡ most_bytes) }
{
    match make(lines, terms, samples, &mut *file) {
        Ok(length) => write(num::part(file, 0, length)),
        Err(error) => write_line(|out| put_refused(out, error)),
    }
}

// Writes what is made of the whole input.
fn finish(making: Progress, samples: &[i16], file: &mut [u8])
    requires { (length samples.now ≡ most_samples) × (length file.old ≡ most_bytes) }
{
    let lines = making.lines;
    if is_whole(making) {
        if let Some(terms) = making.terms {
            write_made(lines, terms, samples, file);
            return;
        }
    }
    write_line(|out| put_bad(out, lines));
}

// Reads and feeds until the input ends or a line is none, and writes what is made of it. A read that a signal interrupts has failed.
pub(crate) fn run(rt: &HostRuntime, input: &mut [u8], samples: &mut [i16], file: &mut [u8])
    requires { (length samples.old ≡ most_samples) × (length file.old ≡ most_bytes) }
{
    let mut making = begun();
    for _ in 0..u64::MAX {
        let Ok(n) = rt.stdin().read(&mut *input) else {
            complain(b"the input cannot be read\n");
            return;
        };
        making = feed(making, num::part(&*input, 0, n), &mut *samples);
        if n == 0 || !making.good {
            break;
        }
    }
    finish(making, samples, file);
}
