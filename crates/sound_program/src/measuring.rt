// The levels of each tenth of a second, a line each: L, the frames, of the left side the peak, the sum of squares and the overs, the same
// of the right one, and the peak of each of core 0's eight voices.
use crate::files::NAME;
use crate::{FRAMES, Level, Run, State};
use output::Output;
use program::{STDOUT, written};
use sizes::STEMS;

// A tenth of a second.
const TENTH: usize = 4800;

impl Level {
    // With more frames, by way of two sides of zeros.
    fn with_sides(
        self,
        stems: &[i16],
        others: &[i16],
        left: &mut [i32],
        right: &mut [i32],
    ) -> Level {
        sides::add(stems, others, &mut *left, &mut *right, 0);
        let first = self.left;
        let second = self.right;
        let voices = self.voices;
        Level {
            frames: self.frames.min(TENTH) + left.len().min(FRAMES),
            left: first.with_frames(left),
            right: second.with_frames(right),
            voices: voice_peaks(voices, stems),
        }
    }

    // With more frames, at most as many as fit the tenth.
    fn with_stems(self, stems: &[i16], others: &[i16]) -> Level {
        let mut left = [0i32; FRAMES];
        let mut right = [0i32; FRAMES];
        let n = (stems.len() / STEMS).min(FRAMES);
        self.with_sides(stems, others, &mut left[..n], &mut right[..n])
    }
}

// The largest sample of each voice of core 0.
fn voice_peaks(before: [u32; 8], stems: &[i16]) -> [u32; 8] {
    let mut voices = before;
    for (channel, peak) in voices.iter_mut().enumerate() {
        *peak = levels::voice_peak(*peak, stems, channel);
    }
    voices
}

// Prints the line of some frames.
fn print_level(level: Level, out: &mut [u8]) -> bool {
    let left = level.left;
    let right = level.right;
    let numbers = [
        level.frames as u64,
        left.peak as u64,
        left.squares,
        left.overs,
        right.peak as u64,
        right.squares,
        right.overs,
    ];
    let mut line = Output {
        buffer: &mut *out,
        at: 0,
    };
    line.put_byte(b'L');
    sqv4_text::put_fields(&mut line, &numbers);
    for &peak in &level.voices {
        sqv4_text::put_fields(&mut line, &[peak as u64]);
    }
    line.put_byte(10);
    let end = line.at;
    written(NAME, STDOUT, num::part(out, 0, end))
}

// A run whose frames behind the last tenth of a second are printed, if there are any.
pub(crate) fn print_last(run: Run, out: &mut [u8]) -> bool {
    let level = run.level;
    if level.frames == 0 {
        return true;
    }
    print_level(level, out)
}

impl Run {
    fn with_level(self, level: Level) -> Run {
        Run { level, ..self }
    }
}

// A run after more frames, of which no more than fit the tenth are taken into it.
fn with_part(run: Run, stems: &[i16], others: &[i16], out: &mut [u8]) -> Run {
    let level = run.level;
    let more = level.with_stems(stems, others);
    if more.frames < TENTH {
        return run.with_level(more);
    }
    let next = run.with_level(Level::default());
    if print_level(more, out) {
        return next;
    }
    next.stopped()
}

// A run after the frames of its last lines: those that fit the tenth, and those behind them.
pub(crate) fn measured(run: Run, stems: &[i16], others: &[i16], out: &mut [u8]) -> Run {
    let level = run.level;
    let room = STEMS * (TENTH - level.frames.min(TENTH));
    let end = room.min(stems.len());
    let other = room.min(others.len());
    let next = with_part(run, &stems[..end], &others[..other], &mut *out);
    if end < stems.len() {
        if next.state == State::Going {
            return with_part(next, &stems[end..], &others[other..], out);
        }
    }
    next
}
