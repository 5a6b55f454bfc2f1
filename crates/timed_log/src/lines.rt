// A line of a timed log, without its closing byte 10.
ghost use Rattle.std.specs.Prelude.{◌≡◌, drop, get_or};
ghost use Rattle.timed_log.specs.Lines.{stamped_line, due_of, number_of, judged, next_due};

use crate::{Ahead, Clockwork, Due, LineAhead, TimedLine};
use log_lines::{Line, LineFault};

// No well-formed line has more bytes: a stamp of ten digits, a comma, and the 16 of a plain line.
const LONGEST: usize = 27;

// A plain line that begins at a place behind its stamp: times are what the stamps say, so a `C` line is malformed.
fn stamped(stamp: u32, from: usize, line: Result<Line, LineFault>) -> TimedLine
    ensures { result ≡ stamped_line stamp from line }
{
    match line? {
        Line::Clock(_) => Err(LineFault::Malformed),
        _ => Ok(Due { stamp, from }),
    }
}

// A stamp, a comma and a plain line.
fn due(text: &[u8]) -> TimedLine
    ensures { result ≡ due_of text.now }
{
    let (value, next) = decimal::take_natural(text, 0).ok_or(LineFault::Malformed)?;
    let stamp = u32::try_from(value).ok().ok_or(LineFault::Malformed)?;
    if num::byte_at(text, next) != 44 {
        return Err(LineFault::Malformed);
    }
    let line = log_lines::parse(num::tail(text, next + 1));
    stamped(stamp, next + 1, line)
}

// The number of a bad line (docs/SPECIFICATION.md, section 12); 0 where it is none.
pub fn number(line: TimedLine) -> u8
    ensures { result ≡ get_or (number_of line) 0 0 }
{
    match line {
        Ok(_) => 0,
        Err(fault) => fault.number(),
    }
}

impl Clockwork {
    // A line that is due behind the lines before it.
    #[tactic(auto, unfolding(crate::specs::Lines::judged))]
    fn judged(self, line: TimedLine) -> TimedLine
        ensures { result ≡ judged self line }
    {
        let due = line?;
        if due.stamp < self.frames {
            return Err(LineFault::Late);
        }
        if due.stamp == self.frames {
            if crate::FRAME_LINES <= self.lines {
                return Err(LineFault::Crowded);
            }
        }
        Ok(due)
    }

    // What stands in an input from `from` on.
    pub(crate) fn next_due(self, input: &[u8], from: usize) -> Ahead
        ensures { result ≡ next_due self (drop from input.now) from }
    {
        if input.len() <= from {
            return Ok(None);
        }
        let Some(stop) = log_player::line_end(input, from) else {
            if input.len() - from <= LONGEST {
                return Ok(None);
            }
            return Err(LineFault::Malformed);
        };
        let due = self.judged(due(&input[from..stop]))?;
        Ok(Some(LineAhead {
            stamp: due.stamp,
            from: from + due.from,
            to: stop + 1,
        }))
    }
}
