// A timed log played from standard input. Here bytes are only read, moved and written; what is printed is timed_log's.
use crate::Lent;
use log_player::Stop;
use program::{Place, STDOUT, complain};
use s3w2::Answer;
use timed_log::{Finished, Timed, TimedRan};

// The name that the program complains with.
const NAME: &[u8] = b"s3w2-timed: ";

// The chip refuses calls over the RAM and the queue buffer.
fn refused() -> Place {
    complain(NAME, b"the chip refuses its buffers\n");
    Place::Stopped
}

// Where a run begins; `answer` is what making its chip answered.
fn beginning(answer: Answer) -> Place {
    if answer.is_err() {
        return refused();
    }
    Place::Going {
        from: 0,
        filled: 0,
        number: 1,
    }
}

// Writes the text's bytes before `end` to standard output, and answers whether it could.
fn written(text: &[u8], end: usize) -> bool {
    program::written(NAME, STDOUT, num::part(text, 0, end))
}

// Writes the end of the text.
fn write_end(finished: Finished, text: &[u8]) {
    written(text, finished.end);
    if let Err(Stop::Refused(_)) = finished.next {
        refused();
    }
}

// Ends the text, where the input has come to its end.
fn finish(timed: Timed, place: Place, text: &mut [u8], lent: &mut Lent<'_>) {
    if let Place::Ended { rest, number } = place {
        let finished = timed.finish(rest, number, &mut *lent.ram, &mut *lent.queues, &mut *text);
        write_end(finished, text);
    }
}

// Where a run goes on behind the lines that were played.
fn behind(rt: &HostRuntime, ran: TimedRan, filled: usize, input: &mut [u8]) -> Place {
    match ran.next {
        Ok(Some(_)) => Place::Going {
            from: ran.from,
            filled,
            number: ran.number,
        },
        Ok(None) => program::refilled(rt, NAME, ran.from, filled, ran.number, input),
        Err(Stop::Bad(_)) => Place::Stopped,
        Err(Stop::Refused(_)) => refused(),
    }
}

// The same, where what they print can be written.
fn told(rt: &HostRuntime, ran: TimedRan, filled: usize, input: &mut [u8], text: &[u8]) -> Place {
    if written(text, ran.end) {
        return behind(rt, ran, filled, input);
    }
    Place::Stopped
}

// Plays the input from a place on, and writes what it prints.
fn go_on(
    rt: &HostRuntime,
    fresh: Timed,
    begin: Place,
    input: &mut [u8],
    plain: &mut [u8],
    text: &mut [u8],
    lent: &mut Lent<'_>,
) {
    let mut timed = fresh;
    let mut place = begin;
    for _ in 0..u64::MAX {
        let Place::Going {
            from,
            filled,
            number,
        } = place
        else {
            break;
        };
        let ran = timed.run(
            num::part(&*input, 0, filled),
            from,
            number,
            &mut *plain,
            &mut *lent.ram,
            &mut *lent.queues,
            &mut *text,
        );
        timed = ran.timed;
        place = told(rt, ran, filled, &mut *input, &*text);
    }
    finish(timed, place, text, lent);
}

// Plays the whole input.
pub(crate) fn play(
    rt: &HostRuntime,
    input: &mut [u8],
    plain: &mut [u8],
    text: &mut [u8],
    lent: &mut Lent<'_>,
) {
    let made = Timed::fresh(&mut *lent.ram);
    let timed = made.timed;
    let answer = made.answer;
    let place = beginning(answer);
    go_on(rt, timed, place, input, plain, text, lent);
}
