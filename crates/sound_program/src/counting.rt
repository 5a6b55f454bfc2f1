// The frames of a log, counted before it is played.
use crate::playing::settled;
use crate::{FRAMES, Run, State};
use std::fs::File;

// Kept as it is: the input buffer is lent by the caller and read into again, so what stands in it is told by its places.
// What was read ahead of a log: so many of its first bytes stand in the input buffer, and it has so many frames, where they are known.
#[derive(Clone, Copy)]
pub(crate) struct Ahead {
    pub filled: usize,
    pub frames: Option<u64>,
}

// A log that is not played to its end.
#[derive(Clone, Copy)]
pub(crate) struct NotWhole;

// A run after the next lines; where none can be taken, after more input.
fn counted(log: &mut File, run: Run, input: &mut [u8]) -> Run {
    let lines = log_sound::pass(num::part(&*input, 0, run.filled), run.from, FRAMES);
    let next = run.passed(lines.from, lines.count, lines.frames);
    settled(log, run.from, next, input)
}

// Counts the frames of a whole log.
fn count(log: &mut File, input: &mut [u8]) -> Run {
    let mut run = Run::begun();
    for _ in 0..u64::MAX {
        if run.state != State::Going {
            break;
        }
        run = counted(&mut *log, run, &mut *input);
    }
    run
}

// Where the input can be read again, the log's frames are counted first, so that its length is known ahead: its frames, where they are
// known; an error where it is not whole.
pub(crate) fn look_ahead(rt: &HostRuntime, input: &mut [u8]) -> Result<Option<u64>, NotWhole> {
    let Some(mut log) = program::input_again(rt) else {
        return Ok(None);
    };
    let run = count(&mut log, input);
    if run.state == State::Ended {
        return Ok(Some(run.frames));
    }
    Err(NotWhole)
}

// The frames of a log that stands in a text, where it is whole.
fn frames_in(log: &[u8]) -> Option<u64> {
    let mut from = 0;
    let mut frames: u64 = 0;
    // Kept as it is: a turn goes on by as many lines as were taken, so there is no range or chain to go over.
    while from < log.len() {
        let lines = log_sound::pass(log, from, FRAMES);
        if lines.from <= from {
            return None;
        }
        from = lines.from;
        frames = frames.wrapping_add(lines.frames as u64);
    }
    Some(frames)
}

// The frames of a log that has ended behind so many bytes of a buffer; not known where it filled the buffer.
fn frames_of(input: &[u8], filled: usize) -> Option<u64> {
    if filled < input.len() {
        return frames_in(num::part(input, 0, filled));
    }
    None
}

// Reads until the input buffer is full, the input has ended or cannot be read. Of a log that ends within it the frames are known.
pub(crate) fn read_ahead(rt: &HostRuntime, input: &mut [u8]) -> Ahead {
    let mut filled = 0;
    let mut frames = None;
    for _ in 0..input.len() {
        match program::read_behind(rt, &mut *input, filled) {
            Ok(Some(more)) => filled = more,
            Ok(None) => {
                frames = frames_of(&*input, filled);
                break;
            }
            Err(_) => break,
        }
    }
    Ahead { filled, frames }
}
