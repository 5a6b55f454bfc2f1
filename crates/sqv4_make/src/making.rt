// The input byte after byte, and the file that is made of it.
ghost use Rattle.std.specs.Prelude.{◌≡◌, ◌-◌, ◌≤◌, length, take};
ghost use Rattle.sqv4_writer.specs.Streams.{answer_for, written_into, file_of};
ghost use Rattle.sqv4_make.specs.Making.{begun_of, spoiled_of, counted_of, headed_by, sampled_by, stored_by, kept_of, ended_of};
ghost use Rattle.sqv4_make.specs.Making.{samples_ended, step_of, samples_step, fed, samples_fed, is_whole, most_samples, most_bytes};

use crate::Progress;
use crate::lines::{first_line, sample_line};
use sqv4_writer::{StreamError, Terms};

// The longest line: `2,4294967295,255,255`.
const LINE_SIZE: usize = 20;

// Nothing read yet.
pub(crate) fn begun() -> Progress
    ensures { result ≡ begun_of }
{
    Progress {
        line: [0; 20],
        filled: 0,
        lines: 0,
        terms: None,
        good: true,
    }
}

// A line was none.
fn spoiled(mut making: Progress) -> Progress
    ensures { result ≡ spoiled_of making }
{
    making.good = false;
    making
}

// A whole line more.
fn counted(mut making: Progress) -> Progress
    ensures { result ≡ counted_of making }
{
    making.filled = 0;
    making.lines = making.lines.wrapping_add(1);
    making
}

// The first line is whole.
fn headed(making: Progress, first: Option<Terms>) -> Progress
    ensures { result ≡ headed_by making first }
{
    let line = making.line;
    match first {
        Some(_) => Progress {
            line,
            filled: 0,
            lines: 1,
            terms: first,
            good: true,
        },
        None => spoiled(making),
    }
}

// A further line is whole.
fn sampled(making: Progress, found: Option<i16>) -> Progress
    ensures { result ≡ sampled_by making found }
{
    match found {
        Some(_) => counted(making),
        None => spoiled(making),
    }
}

// Stores a sample, if there is room for it.
fn store_sample(samples: &mut [i16], at: usize, found: Option<i16>)
    ensures { samples.new ≡ stored_by samples.old at found }
{
    if let Some(sample) = found {
        if at < samples.len() {
            samples[at] = sample;
        }
    }
}

// A byte of a line.
#[tactic(auto, unfolding(crate::specs::Making::kept_of))]
fn kept(mut making: Progress, byte: u8) -> Progress
    ensures { result ≡ kept_of making byte }
{
    let at = making.filled;
    if LINE_SIZE <= at {
        return spoiled(making);
    }
    let mut line = making.line;
    line[at] = byte;
    making.line = line;
    making.filled = at + 1;
    making
}

// A line is whole.
#[tactic(auto, unfolding(crate::specs::Making::ended_of, crate::specs::Making::samples_ended))]
fn ended(making: Progress, samples: &mut [i16]) -> Progress
    ensures result { result ≡ ended_of making }
    ensures samples { samples.new ≡ samples_ended making samples.old }
{
    let line = making.line;
    let filled = making.filled.min(LINE_SIZE);
    let lines = making.lines;
    if lines == 0 {
        return headed(making, first_line(&line[..filled]));
    }
    let found = sample_line(&line[..filled]);
    store_sample(samples, (lines - 1) as usize, found);
    sampled(making, found)
}

// One byte more.
#[tactic(auto, unfolding(crate::specs::Making::step_of, crate::specs::Making::samples_step))]
fn step(making: Progress, byte: u8, samples: &mut [i16]) -> Progress
    ensures result { result ≡ step_of making byte }
    ensures samples { samples.new ≡ samples_step making byte samples.old }
{
    if !making.good {
        return making;
    }
    if byte == 10 {
        return ended(making, samples);
    }
    kept(making, byte)
}

// Bytes one after the other.
pub(crate) fn feed(first: Progress, bytes: &[u8], samples: &mut [i16]) -> Progress
    ensures result { result ≡ fed first bytes.now }
    ensures samples { samples.new ≡ samples_fed first bytes.now samples.old }
{
    let mut making = first;
    for byte in bytes {
        making = step(making, *byte, samples);
    }
    making
}

// Whether the input could end here: the first line is there, and the last line is whole.
#[tactic(auto, unfolding(crate::specs::Making::is_whole))]
pub(crate) fn is_whole(making: Progress) -> bool
    ensures { result ≡ is_whole making }
{
    if making.good {
        if making.filled == 0 {
            return 0 < making.lines;
        }
    }
    false
}

// Makes the file of all samples, of so many lines with the first.
pub(crate) fn make(
    lines: u64,
    terms: Terms,
    samples: &[i16],
    file: &mut [u8],
) -> Result<usize, StreamError>
    requires { (1 ≤ lines) × (length samples.now ≡ most_samples) × (length file.old ≡ most_bytes) }
    ensures result { result ≡ answer_for (lines - 1) terms.variant terms.rate terms.volume terms.index most_bytes }
    ensures file { file.new
        ≡ written_into file.old
        (file_of (take (lines - 1) samples.now) terms.variant terms.rate terms.volume terms.index) result }
{
    let count = (lines - 1) as usize;
    sqv4_writer::answer_for(count, terms, file.len())?;
    sqv4_writer::write_stream(&samples[..count], terms, file)
}
