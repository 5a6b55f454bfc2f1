// What a program does with standard input and standard output: bytes read, moved and written, and what is said where that fails;
// files read or written again; and the words that it was started with.
#![tactic(auto)]

ghost use Rattle.std.specs.Prelude.{◌≡◌, ◌-◌, ◌≤◌, min, length, take, drop};
ghost use Rattle.num.specs.Lists.{part};
ghost use Rattle.program.specs.Places.{place_after};
ghost use Rattle.program.specs.Reading.{Filled, Refilled};

mod again;
mod lines;
mod words;

pub use again::{input_again, output_again};
pub use lines::next_line;
use std::io::{Error, Read};
pub use words::{is_word, word_count};

// The descriptors of standard input, standard output and standard error.
pub const STDIN: i32 = 0;

pub const STDOUT: i32 = 1;

pub const STDERR: i32 = 2;

// Kept as it is: the buffer is lent by the caller and read into again, so a line is told by its places.
// A line in a buffer: its bytes are those from `from` to before `to`, where its closing byte 10 stands. The bytes of the buffer
// before `filled` have been read.
#[derive(Clone, Copy)]
pub struct BufferLine {
    pub from: usize,
    pub to: usize,
    pub filled: usize,
}

// Where a run over a log stands.
#[derive(Clone, Copy)]
pub enum Place {
    // Kept as it is: the buffer is lent by the caller and read into again, so what stands in it is told by its places.
    // The bytes of the input buffer from `from` to before `filled` are not played or written out yet, and begin with line `number`.
    Going {
        from: usize,
        filled: usize,
        number: u64,
    },
    // The input has ended: `rest` bytes follow its last byte 10, and stand where line `number` would.
    Ended {
        rest: usize,
        number: u64,
    },
    // It does not go on.
    Stopped,
}

// Writes a text to standard error.
pub fn say(text: &[u8]) {
    io::write_all(STDERR, text);
}

// Says why a program stops, behind its name: in one write, where both have room in it.
pub fn complain(name: &[u8], reason: &[u8]) {
    let mut text = [0u8; 128];
    let middle = name.len();
    let end = middle + reason.len();
    if text.len() < end {
        say(name);
        say(reason);
        return;
    }
    text[..middle].copy_from_slice(name);
    text[middle..end].copy_from_slice(reason);
    say(&text[..end]);
}

// Writes a text to a descriptor, and answers whether it could; where it could not, that is said behind the program's name.
pub fn written(name: &[u8], descriptor: i32, text: &[u8]) -> bool {
    if io::write_all(descriptor, text) {
        return true;
    }
    complain(name, b"the output cannot be written\n");
    false
}

// Writes the text's bytes before `at` to standard output if fewer than `room` are left behind them, and answers where to go on.
#[tactic(auto, unfolding(crate::specs::Places::place_after))]
pub fn flush(text: &[u8], at: usize, room: usize) -> usize
    ensures result { result ≡ place_after (length text.now) at room }
    ensures bound { result ≤ length text.now }
{
    if at <= text.len() {
        if room <= text.len() - at {
            return at;
        }
        io::write_all(STDOUT, num::part(text, 0, at));
    }
    0
}

// Reads once, behind the first `kept` bytes: how many bytes stand in the buffer then, or None where the input has ended. A buffer
// without room ends the input. A read that a signal interrupts has failed.
pub fn read_from<R: Read>(
    source: &mut R,
    input: &mut [u8],
    kept: usize,
) -> Result<Option<usize>, Error>
    ensures filled { Filled (length input.old) kept result }
    ensures front { take (min kept (length input.old)) input.new
        ≡ take (min kept (length input.old)) input.old }
{
    let start = kept.min(input.len());
    if start == input.len() {
        return Ok(None);
    }
    let got = source.read(&mut input[start..])?;
    if got == 0 {
        return Ok(None);
    }
    Ok(Some(start + got))
}

// Reads once from standard input, behind the first `kept` bytes. A buffer without room ends the input.
pub fn read_behind(rt: &HostRuntime, input: &mut [u8], kept: usize) -> Result<Option<usize>, Error>
    ensures filled { Filled (length input.old) kept result }
    ensures front { take (min kept (length input.old)) input.new
        ≡ take (min kept (length input.old)) input.old }
{
    read_from(&mut rt.stdin(), input, kept)
}

// Reads until the buffer is full, the source has ended or a read fails, and answers how many bytes were put at the buffer's front.
pub fn read_full<R: Read>(source: &mut R, buffer: &mut [u8]) -> usize
    ensures { result ≤ length buffer.new }
{
    let mut filled = 0;
    // Kept as it is: no index is counted here; each turn goes on by as many bytes as were read.
    while filled < buffer.len() {
        let Ok(got) = source.read(&mut buffer[filled..]) else {
            return filled;
        };
        if got == 0 {
            return filled;
        }
        filled += got;
    }
    filled
}

// Moves the bytes from `from` to before `to` to the front, as far as there are any, and answers how many there are. The bytes
// behind them stay.
pub fn keep(input: &mut [u8], from: usize, to: usize) -> usize
    ensures result { result ≡ length (part input.old from (to - from)) }
    ensures input_after { take result input.new ≡ part input.old from (to - from) }
    ensures input_unchanged { drop result input.new ≡ drop result input.old }
{
    let end = to.min(input.len());
    let start = from.min(end);
    let count = end - start;
    input.copy_within(start..end, 0);
    count
}

// Goes on with more input behind the bytes from `from` to before `filled`, if there is any; they are moved to the front. Where the
// input cannot be read, that is said behind the program's name.
pub fn refilled(
    rt: &HostRuntime,
    name: &[u8],
    from: usize,
    filled: usize,
    number: u64,
    input: &mut [u8],
) -> Place
    ensures { Refilled (length input.old) (length (part input.old from (filled - from))) number result }
{
    let kept = keep(&mut *input, from, filled);
    match read_behind(rt, input, kept) {
        Ok(Some(more)) => Place::Going {
            from: 0,
            filled: more,
            number,
        },
        Ok(None) => Place::Ended { rest: kept, number },
        Err(_) => {
            complain(name, b"the input cannot be read\n");
            Place::Stopped
        }
    }
}
