// The text that tells of an SQV4 file: one line for the check's answer, then a line for each interleaved sample.
#![tactic(auto)]

ghost use Rattle.std.specs.Prelude.{◌≡◌, ◌<◌, ◌≤◌, [], ◌∷◌, length};
ghost use Rattle.output.specs.Output.{Puts};
ghost use Rattle.sqv4.specs.Files.{error_number};
ghost use Rattle.sqv4_text.specs.Lines.{header_values, values_of, samples_in, fields, lines, word_of, answer_line};

mod pieces;
mod windows;

use output::Output;
use program::STDIN;
use sqv4::{Header, InspectError};
use std::fs::File;
use std::ops::ControlFlow;

// The longest file by itself: no longer one can lie in a chip's RAM.
const LONGEST_READ: usize = 16777216;

// More room than a text ever has left: all of it is written.
const EVERYTHING: usize = 0xffff_ffff_ffff_ffff;

// Why nothing more of a batch is read: fewer bytes than a length or a file has, or a file that is too long.
#[derive(Clone, Copy, Debug, PartialEq, Eq)]
enum BatchError {
    CutShort,
    TooLong,
}

// The interleaved samples that a file has.
fn sample_count(found: Result<Header, InspectError>) -> usize
    ensures { result ≡ samples_in found }
{
    match found {
        Ok(header) => { header.samples_per_channel.min(0xffff_ffff) * (header.channels as usize) }
        Err(_) => 0,
    }
}

// Puts each number after a comma.
pub fn put_fields(out: &mut Output<'_>, values: &[u64])
    ensures { Puts out.old out.new (fields values.now) }
{
    out.at = out.at.min(out.buffer.len());
    for &value in values {
        out.put_byte(44);
        decimal::put_natural(&mut *out, value);
    }
}

fn put_header(out: &mut Output<'_>, header: Header)
    ensures { Puts out.old out.new (fields (header_values header)) }
{
    let variant = header.variant;
    let values = [
        header.version as u64,
        u8::from(variant) as u64,
        header.channels as u64,
        header.sample_rate as u64,
        header.samples_per_channel as u64,
    ];
    put_fields(out, &values);
}

// The number of a refusal, with its values.
fn put_error(out: &mut Output<'_>, error: InspectError)
    ensures { Puts out.old out.new (fields (error_number error)) }
{
    match error {
        InspectError::TruncatedHeader => put_fields(out, &[4]),
        InspectError::InvalidMagic => put_fields(out, &[5]),
        InspectError::UnsupportedVersion(value) => put_fields(out, &[6, value as u64]),
        InspectError::InvalidVariant(value) => put_fields(out, &[7, value as u64]),
        InspectError::InvalidChannels(value) => put_fields(out, &[8, value as u64]),
        InspectError::InvalidReservedByte(value) => put_fields(out, &[9, value as u64]),
        InspectError::ZeroSampleRate => put_fields(out, &[10]),
        InspectError::InvalidFileLength { expected, actual } => {
            put_fields(out, &[11, expected as u64, actual as u64])
        }
        InspectError::InvalidStepIndex(index) => put_fields(out, &[12, index as u64]),
        InspectError::NonZeroPadding => put_fields(out, &[13]),
    }
}

// The number of a refusal with its values, or what the header says, each after a comma.
fn put_values(out: &mut Output<'_>, found: Result<Header, InspectError>)
    ensures { Puts out.old out.new (fields (values_of found)) }
{
    match found {
        Ok(header) => put_header(out, header),
        Err(error) => put_error(out, error),
    }
}

// Puts each sample on a line of its own.
pub fn put_samples(out: &mut Output<'_>, samples: &[i16])
    ensures { Puts out.old out.new (lines samples.now) }
{
    out.at = out.at.min(out.buffer.len());
    for &sample in samples {
        decimal::put_number(&mut *out, sample as i64);
        out.put_byte(10);
    }
}

fn put_word(out: &mut Output<'_>, found: Result<Header, InspectError>)
    ensures { Puts out.old out.new (word_of found) }
{
    match found {
        Ok(_) => out.put_bytes(b"file"),
        Err(_) => out.put_bytes(b"refused"),
    }
}

// Puts the line of the check's answer.
fn put_answer(out: &mut Output<'_>, found: Result<Header, InspectError>)
    ensures { Puts out.old out.new (answer_line found) }
{
    put_word(&mut *out, found);
    put_values(&mut *out, found);
    out.put_byte(10);
}

// Writes what is put, where there is not so much room behind it.
fn make_room(text: &mut Output<'_>, room: usize)
    ensures { text.new.at ≤ length text.new.buffer.now }
{
    let at = text.at;
    text.at = program::flush(&*text.buffer, at, room);
}

fn print_samples(samples: &[i16], text: &mut Output<'_>)
    requires { text.old.at ≤ length text.old.buffer.now }
    ensures { text.new.at ≤ length text.new.buffer.now }
{
    for chunk in samples.chunks(4096) {
        make_room(&mut *text, 32768);
        put_samples(&mut *text, chunk);
    }
}

// Prints what a file is, by way of the lent buffers. What is printed last may still stand in the text.
fn print_file(file: &[u8], samples: &mut [i16], text: &mut Output<'_>)
    ensures { text.new.at ≤ length text.new.buffer.now }
{
    make_room(&mut *text, 128);
    let found = sqv4::decode(file, samples);
    put_answer(&mut *text, found);
    let count = sample_count(found).min(samples.len());
    print_samples(&samples[..count], text);
}

// The number of four bytes, the first lowest.
fn number(bytes: &[u8; 4]) -> usize {
    u32::from_le_bytes(*bytes) as usize
}

// Reads the length that stands before the next file, if there is one.
fn read_length() -> Result<Option<usize>, BatchError> {
    let mut head = [0u8; 4];
    let got = io::read_full(STDIN, &mut head);
    if got == 0 {
        return Ok(None);
    }
    if got < 4 {
        return Err(BatchError::CutShort);
    }
    Ok(Some(number(&head)))
}

// Reads the next file into `file`, which has one byte more than the longest, and answers its length.
fn read_next(file: &mut [u8]) -> Result<Option<usize>, BatchError> {
    let Some(length) = read_length()? else {
        return Ok(None);
    };
    if file.len() <= length {
        return Err(BatchError::TooLong);
    }
    if io::read_full(STDIN, &mut file[..length]) < length {
        return Err(BatchError::CutShort);
    }
    Ok(Some(length))
}

// Prints why nothing more is read.
fn stop(text: &mut Output<'_>, reason: &[u8]) -> ControlFlow<()> {
    make_room(&mut *text, 128);
    text.put_bytes(reason);
    ControlFlow::Break(())
}

// Reads the next file and prints what it is.
fn print_next(file: &mut [u8], samples: &mut [i16], text: &mut Output<'_>) -> ControlFlow<()> {
    match read_next(&mut *file) {
        Ok(Some(length)) => {
            print_file(num::part(file, 0, length), samples, text);
            ControlFlow::Continue(())
        }
        Ok(None) => ControlFlow::Break(()),
        Err(BatchError::CutShort) => stop(text, b"cut short\n"),
        Err(BatchError::TooLong) => stop(text, b"too long\n"),
    }
}

// Prints what every file is, by way of the lent buffers.
fn print_files(file: &mut [u8], samples: &mut [i16], text: &mut Output<'_>) {
    for _ in 0..u64::MAX {
        if print_next(&mut *file, &mut *samples, &mut *text).is_break() {
            return;
        }
    }
}

fn print_all(file: &mut [u8], samples: &mut [i16], text: &mut [u8]) {
    let mut out = Output {
        buffer: text,
        at: 0,
    };
    print_files(file, samples, &mut out);
    make_room(&mut out, EVERYTHING);
}

fn print_input(file: &mut [u8], samples: &mut [i16]) {
    let mut text = io::large_buffer();
    print_all(file, samples, &mut text);
}

// Room for the longest file and one byte more.
fn with_samples(samples: &mut [i16]) {
    let mut file = [0u8; 1048577];
    print_input(&mut file, samples);
}

// Prints what each of a batch of files on standard input is, of which each stands after its length in 4 bytes, low byte first.
// The longest file has at most 41,942 fragments of 25 bytes, with 64 samples in each.
pub fn print_batch() {
    let mut samples = [0i16; 2684288];
    with_samples(&mut samples);
}

// Puts what the one file on standard input is, of which `length` bytes stand in the window. One that fills it is read window by
// window, from the input that was opened again where it began.
fn put_one(again: Option<File>, length: usize, window: &mut [u8], text: &mut Output<'_>) {
    if length < window.len() {
        return pieces::print_file(num::part(window, 0, length), text);
    }
    windows::print_long(again, length, window, text)
}

fn print_one(rt: &HostRuntime, window: &mut [u8], text: &mut [u8]) {
    let again = program::input_again(rt);
    let length = io::read_full(STDIN, &mut *window);
    let mut out = Output {
        buffer: text,
        at: 0,
    };
    put_one(again, length, window, &mut out);
    make_room(&mut out, EVERYTHING);
}

fn with_window(rt: &HostRuntime, window: &mut [u8]) {
    let mut text = io::large_buffer();
    print_one(rt, window, &mut text);
}

// Prints what the one file on standard input is. It has no buffer for the samples, nor for a long file.
pub fn print_single(rt: &HostRuntime) {
    let mut window = io::large_buffer();
    with_window(rt, &mut window);
}
