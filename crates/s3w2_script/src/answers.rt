// A line's answer.
use crate::{ANSWER_ROOM, fields, sounding};
use fields::Figures;
use output::Output;
use s3w2::{Answer, Returned};
use voices::Core;

// The numbers that an answer gives.
fn given(returned: Returned) -> Figures {
    match returned {
        Returned::Done => Figures::Nothing,
        Returned::Byte(x) => Figures::One(x as u64),
        Returned::Count(x) => Figures::One(x as u64),
        Returned::Flag(x) => Figures::One(u64::from(x)),
        Returned::Ended(x) => Figures::One(x as u64),
        Returned::Sample { value, ended } => {
            Figures::Two(fields::sample_bits(value), u64::from(ended))
        }
    }
}

// What a line tells of no chip, or what its call gives.
fn figures(returned: Returned, line: &[u64], ram: &[u8]) -> Figures {
    match fields::letter(line) {
        b'A' | b'O' | b'U' | b'u' | b'K' => fields::told(line, ram),
        _ => given(returned),
    }
}

// Puts what a line gives, and the numbers that its frames gave, or the number of its refusal.
fn put_answer(out: &mut Output<'_>, answer: Answer, line: &[u64], ram: &[u8], numbers: &[u64]) {
    match answer {
        Ok(returned) => {
            fields::put_figures(&mut *out, figures(returned, line, ram));
            let count = sounding::count(line).min(numbers.len());
            fields::put_numbers(out, &numbers[..count]);
        }
        Err(refusal) => fields::put_refused(out, refusal.number()),
    }
}

// Writes the answers before a place where another may not fit behind them, and puts a line's answer, behind which the core is as given.
pub(crate) fn put(
    out: &mut Output<'_>,
    answer: Answer,
    core: Core,
    number: usize,
    line: &[u64],
    ram: &[u8],
    queues: &[i16],
    numbers: &[u64],
) {
    let end = out.at;
    out.at = program::flush(&*out.buffer, end, ANSWER_ROOM);
    out.put_byte(fields::letter(line));
    put_answer(&mut *out, answer, line, ram, numbers);
    fields::put_voice(&mut *out, core, number, line, queues);
    out.put_byte(10);
}
