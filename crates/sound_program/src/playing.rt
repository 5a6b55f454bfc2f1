// A log played from standard input.
use crate::files::complain;
use crate::sounds::sounded;
use crate::{FRAMES, Level, Run, Sound, State};
use log_lines::LineFault;
use log_player::Stop;
use log_sound::Sounded;
use output::Output;
use s3w2::{Answer, Chip, Returned};
use sizes::{SAMPLE_RATE, STEMS};
use std::io::Read;

impl Run {
    // Nothing read.
    pub(crate) fn begun() -> Run {
        Run {
            level: Level::default(),
            from: 0,
            filled: 0,
            number: 1,
            frames: 0,
            state: State::Going,
        }
    }

    fn at(self, from: usize, filled: usize) -> Run {
        Run {
            from,
            filled,
            ..self
        }
    }

    fn ended(self) -> Run {
        Run {
            state: State::Ended,
            ..self
        }
    }

    pub(crate) fn stopped(self) -> Run {
        Run {
            state: State::Stopped,
            ..self
        }
    }
}

// Says that the line which is next is bad, and why.
fn bad(run: Run, why: LineFault) -> Run {
    let mut text = [0u8; 64];
    let mut out = Output {
        buffer: &mut text,
        at: 0,
    };
    log_lines::put_bad(&mut out, run.number, why.number());
    let end = out.at;
    program::say(num::part(&text, 0, end));
    run.stopped()
}

// Goes on with more input; where there is none, the log is whole if it ends in byte 10.
fn refilled<R: Read>(source: &mut R, run: Run, input: &mut [u8]) -> Run {
    let kept = program::keep(&mut *input, run.from, run.filled);
    let read = program::read_from(source, input, kept);
    match read {
        Ok(Some(filled)) => run.at(0, filled),
        Ok(None) => {
            if kept == 0 {
                return run.ended();
            }
            bad(run, LineFault::Malformed)
        }
        Err(_) => {
            complain(b"the input cannot be read\n");
            run.stopped()
        }
    }
}

// Goes on where no line could be taken.
fn unplayed<R: Read>(source: &mut R, run: Run, input: &mut [u8]) -> Run {
    match log_sound::look(num::part(&*input, 0, run.filled), run.from) {
        Ok(Some(_)) => run.stopped(),
        Ok(None) => refilled(source, run, input),
        Err(Stop::Bad(why)) => bad(run, why),
        Err(Stop::Refused(_)) => run.stopped(),
    }
}

// Says how many frames were played, once for each second of them.
fn told(before: u64, after: u64) {
    let rate = SAMPLE_RATE as u64;
    if before / rate < after / rate {
        crate::files::say_count(b"frames,", after);
    }
}

impl Run {
    // After some lines, which end at a place.
    pub(crate) fn passed(self, from: usize, count: usize, frames: usize) -> Run {
        Run {
            from,
            number: self.number.wrapping_add(count as u64),
            frames: self.frames.wrapping_add(frames as u64),
            ..self
        }
    }
}

// A run that stood at `before`; where no line was taken it goes on with more input.
pub(crate) fn settled<R: Read>(source: &mut R, before: usize, run: Run, input: &mut [u8]) -> Run {
    if run.from == before {
        if run.state == State::Going {
            return unplayed(source, run, input);
        }
    }
    run
}

// The next lines, as many as there is room for the frames of.
fn lines_of(
    chip: Chip,
    run: Run,
    input: &[u8],
    ram: &mut [u8],
    queues: &mut [i16],
    stems: &mut [i16],
    others: &mut [i16],
) -> Sounded {
    let read = num::part(input, 0, run.filled);
    log_sound::play(chip, read, run.from, ram, queues, stems, others)
}

// What becomes of so many frames.
fn framed(
    sound: Sound,
    run: Run,
    frames: usize,
    stems: &[i16],
    others: &[i16],
    out: &mut [u8],
) -> Run {
    let end = STEMS * frames.min(FRAMES);
    let a = end.min(stems.len());
    let b = end.min(others.len());
    sounded(sound, run, &stems[..a], &others[..b], out)
}

// A run after them.
fn heard(
    sound: Sound,
    run: Run,
    lines: Sounded,
    stems: &[i16],
    others: &[i16],
    out: &mut [u8],
) -> Run {
    let answer = lines.answer;
    let next = run.passed(lines.from, lines.count, lines.frames);
    let Ok(Returned::Done) = answer else {
        complain(b"the chip refuses the log\n");
        return next.stopped();
    };
    told(run.frames, next.frames);
    framed(sound, next, lines.frames, stems, others, out)
}

// The same; where no line was taken it goes on with more input.
fn turn(
    rt: &HostRuntime,
    sound: Sound,
    run: Run,
    lines: Sounded,
    input: &mut [u8],
    stems: &[i16],
    others: &[i16],
    out: &mut [u8],
) -> Run {
    let next = heard(sound, run, lines, stems, others, out);
    settled(&mut rt.stdin(), run.from, next, input)
}

// Plays the whole input on a chip; `begun` is a run of which nothing was played.
fn play_on(
    rt: &HostRuntime,
    sound: Sound,
    fresh: Chip,
    begun: Run,
    input: &mut [u8],
    ram: &mut [u8],
    queues: &mut [i16],
    stems: &mut [i16],
    others: &mut [i16],
    out: &mut [u8],
) -> Run {
    let mut chip = fresh;
    let mut run = begun;
    for _ in 0..u64::MAX {
        if run.state != State::Going {
            break;
        }
        let lines = lines_of(
            chip,
            run,
            &*input,
            &mut *ram,
            &mut *queues,
            &mut *stems,
            &mut *others,
        );
        chip = lines.chip;
        run = turn(
            rt,
            sound,
            run,
            lines,
            &mut *input,
            &*stems,
            &*others,
            &mut *out,
        );
    }
    run
}

// The same on a fresh chip; so many bytes of the input stand in its buffer already.
pub(crate) fn play(
    rt: &HostRuntime,
    sound: Sound,
    filled: usize,
    input: &mut [u8],
    ram: &mut [u8],
    queues: &mut [i16],
    stems: &mut [i16],
    others: &mut [i16],
    out: &mut [u8],
) -> Run {
    let called = Chip::new(&mut *ram);
    let chip = called.chip;
    let begun = Run::begun();
    play_on(
        rt,
        sound,
        chip,
        begun.at(0, filled),
        input,
        ram,
        queues,
        stems,
        others,
        out,
    )
}
