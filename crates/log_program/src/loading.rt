// A state read from standard input.
use crate::moving::{read_behind, write_refusal, written};
use crate::playing::go_on;
use crate::{Lent, Program};
use log_player::Player;
use log_state::{Found, LINES};
use output::Output;
use program::{Place, say};
use session::LineRefusal;
use std::io::Error;

// The lines of a state from before there was a second core.
const OLD_LINES: usize = 9;

// Kept as it is: the buffer is lent by the caller and read into again, so a line is told by its places; `to` is behind the line's
// byte 10, where program's BufferLine has it on that byte.
// A line that was found: it ends before `to`, and the bytes of the input buffer before `filled` have been read.
#[derive(Clone, Copy)]
struct StateLine {
    from: usize,
    to: usize,
    filled: usize,
}

// A line being looked for: the bytes of the input buffer from `from` to before `filled` follow what was read; or found; or none can be.
#[derive(Clone, Copy)]
enum Sought {
    Open { from: usize, filled: usize },
    Line(StateLine),
    Failed,
}

impl Sought {
    fn at(from: usize, filled: usize) -> Sought {
        Sought::Open { from, filled }
    }

    fn line(from: usize, to: usize, filled: usize) -> Sought {
        Sought::Line(StateLine { from, to, filled })
    }
}

// Goes on with more input behind the bytes before `end`; where there is none, or no room for any, they are the line.
fn extend(rt: &HostRuntime, program: Program, from: usize, end: usize, input: &mut [u8]) -> Sought {
    let kept = program::keep(&mut *input, from, end);
    let read = read_behind(rt, program, input, kept);
    match read {
        Ok(Some(more)) => Sought::at(0, more),
        Ok(None) => Sought::line(0, kept, kept),
        Err(_) => Sought::Failed,
    }
}

// Looks once for line k.
fn look(
    rt: &HostRuntime,
    program: Program,
    k: usize,
    from: usize,
    filled: usize,
    input: &mut [u8],
) -> Sought {
    let found = log_state::find(num::part(input, 0, filled), from, k);
    match found {
        Found::Line(behind) => Sought::line(from, behind, filled),
        Found::Sound(behind) => Sought::at(behind, filled),
        Found::Open(end) => extend(rt, program, from, end, input),
    }
}

// Looks for line k at a place, if the run goes on there.
fn find(
    rt: &HostRuntime,
    program: Program,
    k: usize,
    place: Place,
    input: &mut [u8],
) -> Option<StateLine> {
    let Place::Going { from, filled, .. } = place else {
        return None;
    };
    let mut sought = Sought::at(from, filled);
    for _ in 0..u64::MAX {
        let Sought::Open { from, filled } = sought else {
            break;
        };
        sought = look(rt, program, k, from, filled, &mut *input);
    }
    match sought {
        Sought::Line(line) => Some(line),
        _ => None,
    }
}

// Says that a state which ends behind its ninth line is of another kind.
fn tell_old(k: usize) {
    if k == OLD_LINES {
        say(b"s3w2-load: a state of nine lines, of one core, is not read: a state has seventeen\n");
    }
}

// Tells which line of the state was refused, the head being line 1.
fn tell_line(k: usize, text: &mut [u8]) {
    let number = (k as u64).wrapping_add(1);
    let mut out = Output {
        buffer: &mut *text,
        at: 0,
    };
    out.put_bytes(b"s3w2-load: line ");
    decimal::put_natural(&mut out, number);
    out.put_bytes(b" of the state\n");
    let end = out.at;
    say(num::part(text, 0, end));
    tell_old(k);
}

// Where the input goes on behind line k, which was answered so.
fn behind(
    program: Program,
    k: usize,
    line: StateLine,
    answer: Result<(), LineRefusal>,
    text: &mut [u8],
) -> Place {
    if let Ok(()) = answer {
        return Place::Going {
            from: line.to,
            filled: line.filled,
            number: 1,
        };
    }
    write_refusal(program, answer, &mut *text);
    tell_line(k, text);
    Place::Stopped
}

// Reads on until the RAM, of which `have` bytes are there, is full, and answers whether it is.
fn fill(rt: &HostRuntime, program: Program, ram: &mut [u8], have: usize) -> Result<bool, Error> {
    let mut got = have;
    for _ in 0..ram.len() {
        if ram.len() <= got {
            return Ok(true);
        }
        let Some(more) = read_behind(rt, program, &mut *ram, got)? else {
            return Ok(false);
        };
        got = more;
    }
    Ok(true)
}

// Prints that the input ends before the RAM does.
fn cut_short(program: Program, text: &mut [u8]) -> Place {
    let mut out = Output {
        buffer: &mut *text,
        at: 0,
    };
    log_state::put_short(&mut out);
    let end = out.at;
    written(program, text, end);
    Place::Stopped
}

// Reads the RAM behind the lines, if they could be read.
fn load_ram(
    rt: &HostRuntime,
    program: Program,
    place: Place,
    input: &[u8],
    text: &mut [u8],
    ram: &mut [u8],
) -> Place {
    let Place::Going { from, filled, .. } = place else {
        return place;
    };
    let mut front = Output {
        buffer: &mut *ram,
        at: 0,
    };
    front.put_bytes(num::part(input, from, filled));
    let got = front.at;
    let read = fill(rt, program, ram, got);
    match read {
        Ok(true) => Place::Going {
            from: from.min(input.len()) + got,
            filled,
            number: 1,
        },
        Ok(false) => cut_short(program, text),
        Err(_) => Place::Stopped,
    }
}

// Reads what follows the lines: the RAM, and the log.
fn play_behind(
    rt: &HostRuntime,
    program: Program,
    player: Player,
    place: Place,
    input: &mut [u8],
    text: &mut [u8],
    lent: &mut Lent<'_>,
) {
    let begin = load_ram(rt, program, place, &*input, &mut *text, &mut *lent.ram);
    go_on(rt, program, player, begin, input, text, lent);
}

// Reads a state into a fresh player, and goes on where that could be done.
pub(crate) fn load_state(
    rt: &HostRuntime,
    program: Program,
    stored: bool,
    fresh: Player,
    begin: Place,
    input: &mut [u8],
    text: &mut [u8],
    lent: &mut Lent<'_>,
) {
    let mut player = fresh;
    let mut place = begin;
    for k in 0..LINES {
        let Some(line) = find(rt, program, k, place, &mut *input) else {
            return;
        };
        let bytes = num::part(&*input, line.from, line.to);
        let taken = log_state::take_line(
            stored,
            player,
            &mut *lent.ram,
            &mut *lent.queues,
            k,
            bytes,
        );
        player = taken.player;
        place = behind(program, k, line, taken.answer, &mut *text);
    }
    play_behind(rt, program, player, place, input, text, lent);
}
