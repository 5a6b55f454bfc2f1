// A log played from standard input.
use crate::loading::load_state;
use crate::moving::{complain, written};
use crate::saving::save;
use crate::{Lent, Program};
use log_player::{Player, Ran, Stop};
use output::Output;
use program::Place;
use s3w2::Answer;

// The chip refuses calls over the RAM and the queue buffer.
fn refused(program: Program) -> Place {
    complain(program, b"the chip refuses its buffers\n");
    Place::Stopped
}

// Where a run begins; `answer` is what making its chip answered.
fn beginning(program: Program, answer: Answer) -> Place {
    if answer.is_err() {
        return refused(program);
    }
    Place::Going {
        from: 0,
        filled: 0,
        number: 1,
    }
}

// Where a run goes on behind the lines that were played.
// Kept as it is: s3w2_timed's is of another player's answer; what follows each case is one line in both, and the rest is program::refilled.
fn behind(rt: &HostRuntime, program: Program, ran: Ran, filled: usize, input: &mut [u8]) -> Place {
    match ran.next {
        Ok(Some(_)) => Place::Going {
            from: ran.from,
            filled,
            number: ran.number,
        },
        Ok(None) => program::refilled(rt, program.name(), ran.from, filled, ran.number, input),
        Err(Stop::Bad(_)) => Place::Stopped,
        Err(Stop::Refused(_)) => refused(program),
    }
}

// The same, where what they print can be written.
fn told(
    rt: &HostRuntime,
    program: Program,
    ran: Ran,
    filled: usize,
    input: &mut [u8],
    text: &[u8],
) -> Place {
    if written(program, text, ran.end) {
        return behind(rt, program, ran, filled, input);
    }
    Place::Stopped
}

// Prints what follows the last line, if the input has come to its end: the state, or the peaks, or that what follows the last byte 10
// is a bad line.
fn end(program: Program, player: Player, place: Place, text: &mut [u8], lent: &Lent<'_>) {
    let Place::Ended { rest, number } = place else {
        return;
    };
    if program.saves() && rest == 0 {
        save(program, player, text, &*lent.ram, &*lent.queues);
        return;
    }
    let mut out = Output {
        buffer: &mut *text,
        at: 0,
    };
    player.finish(rest, number, &mut out);
    let end = out.at;
    written(program, text, end);
}

// Plays the input from a place on, and writes what it prints.
// Kept as it is: of s3w2_timed's loop the two statements that run the player and take its answer differ, so one of both would be handed a closure for each.
pub(crate) fn go_on(
    rt: &HostRuntime,
    program: Program,
    first: Player,
    begin: Place,
    input: &mut [u8],
    text: &mut [u8],
    lent: &mut Lent<'_>,
) {
    let mut player = first;
    let mut place = begin;
    for _ in 0..u64::MAX {
        let Place::Going {
            from,
            filled,
            number,
        } = place
        else {
            break;
        };
        let read = num::part(&*input, 0, filled);
        let ran = player.run(
            read,
            from,
            number,
            &mut *lent.ram,
            &mut *lent.queues,
            &mut *text,
        );
        player = ran.player;
        place = told(rt, program, ran, filled, &mut *input, &*text);
    }
    end(program, player, place, text, lent);
}

// Begins with the state that stands before the log, where a program reads one.
fn begin(
    rt: &HostRuntime,
    program: Program,
    player: Player,
    place: Place,
    input: &mut [u8],
    text: &mut [u8],
    lent: &mut Lent<'_>,
) {
    if let Program::Load { stored, saves: _ } = program {
        load_state(rt, program, stored, player, place, input, text, lent);
    } else {
        go_on(rt, program, player, place, input, text, lent);
    }
}

// Plays the whole input.
pub(crate) fn play(
    rt: &HostRuntime,
    program: Program,
    input: &mut [u8],
    text: &mut [u8],
    lent: &mut Lent<'_>,
) {
    let made = Player::fresh(&mut *lent.ram);
    let player = made.player;
    let answer = made.answer;
    let place = beginning(program, answer);
    begin(rt, program, player, place, input, text, lent);
}
