// The files that a program writes: their headers first, then the frames; and what is said.
use crate::counting::{Ahead, look_ahead, read_ahead};
use crate::measuring::print_last;
use crate::playing::play;
use crate::{Run, Sound, State};
use cores::{CHIP_STEMS, CHIP_VOICES};
use output::Output;
use program::{STDOUT, say};
use sizes::SAMPLE_RATE;
use std::io::Seek;
use std::os::unix::fs::FileExt;

// The descriptor of voice 0's file.
const FIRST_VOICE: i32 = 3;

// The bits of a sample.
const BITS: u16 = 16;

// The name that each of the programs complains with.
pub(crate) const NAME: &[u8] = b"s3w2: ";

// Says why a program stops.
pub(crate) fn complain(reason: &[u8]) {
    program::complain(NAME, reason);
}

// Says a word, a number and byte 10.
pub(crate) fn say_count(word: &[u8], count: u64) {
    let mut text = [0u8; 64];
    let mut out = Output {
        buffer: &mut text,
        at: 0,
    };
    decimal::put_line(&mut out, word, count);
    let end = out.at;
    say(num::part(&text, 0, end));
}

// The files of a sound: how many, and the channels of each.
#[derive(Clone, Copy)]
struct Files {
    sound: Sound,
    count: usize,
    channels: u16,
}

fn files_of(sound: Sound) -> Files {
    match sound {
        Sound::Mix => Files {
            sound,
            count: 1,
            channels: 2,
        },
        Sound::Stems => Files {
            sound,
            count: 1,
            channels: CHIP_STEMS as u16,
        },
        Sound::Split => Files {
            sound,
            count: CHIP_VOICES,
            channels: 2,
        },
        Sound::Levels => Files {
            sound,
            count: 0,
            channels: 2,
        },
    }
}

// The descriptor of voice n's file; there are sixteen.
pub(crate) fn of_voice(n: usize) -> i32 {
    FIRST_VOICE + n.min(CHIP_VOICES - 1) as i32
}

impl Files {
    // The descriptor of file n.
    fn descriptor(self, n: usize) -> i32 {
        match self.sound {
            Sound::Split => of_voice(n),
            Sound::Mix | Sound::Stems | Sound::Levels => STDOUT,
        }
    }
}

// The bytes of so many frames; those of more frames than 32 bits hold are not counted, since no header can hold their number.
fn bytes_of(channels: u16, frames: u64) -> Option<u64> {
    let few = u32::try_from(frames).ok()?;
    Some(2 * (channels as u64) * (few as u64))
}

// Writes a header over what a descriptor's file has at a place.
fn put_again(rt: &HostRuntime, descriptor: i32, place: u64, head: &[u8]) -> bool {
    let Some(file) = program::output_again(rt, descriptor) else {
        return false;
    };
    file.write_all_at(head, place).is_ok()
}

// Writes the header of so many frames to a descriptor, at a place; behind what was written where there is none.
fn put_head(
    rt: &HostRuntime,
    descriptor: i32,
    place: Option<u64>,
    channels: u16,
    frames: Option<u64>,
) -> bool {
    let mut text = [0u8; wav::HEADER];
    let size = frames.and_then(|frames| bytes_of(channels, frames));
    let mut out = Output {
        buffer: &mut text,
        at: 0,
    };
    wav::put_header(&mut out, channels, SAMPLE_RATE as u32, BITS, size);
    match place {
        Some(at) => put_again(rt, descriptor, at, &text),
        None => io::write_all(descriptor, &text),
    }
}

// Writes the header of each file.
fn put_heads(rt: &HostRuntime, files: Files, place: Option<u64>, frames: Option<u64>) -> bool {
    for n in 0..files.count {
        let descriptor = files.descriptor(n);
        if !put_head(rt, descriptor, place, files.channels, frames) {
            return false;
        }
    }
    true
}

// The place where the files begin, whose headers are written; none where they cannot be written again. It is known only then: of a file
// that grows at its end no place is told before something was written to it.
fn begin_of(rt: &HostRuntime, files: Files) -> Option<u64> {
    let mut file = program::output_again(rt, files.descriptor(0))?;
    let behind = file.stream_position().ok()?;
    behind.checked_sub(wav::HEADER as u64)
}

// Cuts a descriptor's file off at a place.
fn cut(rt: &HostRuntime, descriptor: i32, place: u64) {
    if let Some(file) = program::output_again(rt, descriptor) {
        let _ = file.set_len(place);
    }
}

// A log that was not played whole leaves no file: what was written is cut off again, where that can be done.
fn undo(rt: &HostRuntime, files: Files, place: u64) {
    for n in 0..files.count {
        cut(rt, files.descriptor(n), place);
    }
}

// The end of a run whose files begin at a place: a header that has not the right length is written again, where that can be done.
fn ended(
    rt: &HostRuntime,
    files: Files,
    run: Run,
    place: Option<u64>,
    known: Option<u64>,
    out: &mut [u8],
) {
    if run.state != State::Ended {
        if let Some(begin) = place {
            undo(rt, files, begin);
        }
        return;
    }
    let frames = Some(run.frames);
    if frames != known && place.is_some() {
        put_heads(rt, files, place, frames);
    }
    if print_last(run, out) {
        say_count(b"played,", run.frames);
    }
}

// Plays the log and writes its files.
fn write(
    rt: &HostRuntime,
    sound: Sound,
    ahead: Ahead,
    input: &mut [u8],
    ram: &mut [u8],
    queues: &mut [i16],
    stems: &mut [i16],
    others: &mut [i16],
    out: &mut [u8],
) {
    let files = files_of(sound);
    let known = ahead.frames;
    if put_heads(rt, files, None, known) {
        let place = begin_of(rt, files);
        let run = play(
            rt,
            sound,
            ahead.filled,
            input,
            ram,
            queues,
            stems,
            others,
            &mut *out,
        );
        ended(rt, files, run, place, known, out);
        return;
    }
    complain(b"the output cannot be written\n");
}

// What is read ahead of a log that has so many frames, as far as is known. It is waited for only where its length is not known and could
// not be written later.
fn read_before(
    rt: &HostRuntime,
    sound: Sound,
    waits: bool,
    frames: Option<u64>,
    input: &mut [u8],
) -> Ahead {
    let files = files_of(sound);
    if waits && frames.is_none() {
        if program::output_again(rt, files.descriptor(0)).is_none() {
            return read_ahead(rt, input);
        }
    }
    Ahead { filled: 0, frames }
}

// Nothing is written of a log that has a bad line, where that is known ahead.
pub(crate) fn make(
    rt: &HostRuntime,
    sound: Sound,
    waits: bool,
    input: &mut [u8],
    ram: &mut [u8],
    queues: &mut [i16],
    stems: &mut [i16],
    others: &mut [i16],
    out: &mut [u8],
) {
    if let Ok(frames) = look_ahead(rt, &mut *input) {
        let ahead = read_before(rt, sound, waits, frames, &mut *input);
        write(rt, sound, ahead, input, ram, queues, stems, others, out);
    }
}
