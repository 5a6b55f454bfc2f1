// Where a line of an input ends, what comes next, and the end of an input.
ghost use Rattle.std.specs.Prelude.{◌≡◌, ◌+◌, ◌≤◌, length, drop};
ghost use Rattle.output.specs.Output.{Puts};
ghost use Rattle.log_player.specs.Logs.{end_text};
ghost use Rattle.log_player.specs.Steps.{line_end, next_of};
ghost use Rattle.log_player.specs.Runs.{ran_as};
ghost use Rattle.log_player.specs.Batches.{Stops};

use crate::{Next, Player, Ran, Stop};
use log_lines::LineFault;
use output::Output;

// The place of the first byte 10 from `from` on, if there is one.
// Kept as it is: the places that are answered are the whole input's, so with a sub-slice each caller would add its beginning.
#[inline(never)]
pub fn line_end(input: &[u8], from: usize) -> Option<usize>
    ensures { result ≡ line_end (drop from input.now) from }
{
    let count = num::tail(input, from).iter().position(|byte| *byte == 10)?;
    Some(from + count)
}

// What an input holds at a place: a line that can be played, no whole line, or a bad one. No well-formed line has more than 16
// bytes, so a rest that is longer and has no byte 10 is malformed.
pub fn look(input: &[u8], from: usize) -> Next
    ensures { result ≡ next_of (drop from input.now) from }
{
    if input.len() <= from {
        return Ok(None);
    }
    let Some(stop) = line_end(input, from) else {
        if input.len() - from <= 16 {
            return Ok(None);
        }
        return Err(Stop::Bad(LineFault::Malformed));
    };
    log_lines::parse(&input[from..stop])?;
    Ok(Some(stop + 1))
}

impl Player {
    pub(crate) fn ran(self, next: Next, from: usize, number: u64, end: usize) -> Ran
        ensures { result ≡ ran_as self next from number end }
    {
        Ran {
            player: self,
            next,
            from,
            number,
            end,
        }
    }

    // Ends a run at `from`; a bad line is told.
    pub(crate) fn stop(self, input: &[u8], from: usize, number: u64, out: &mut Output<'_>) -> Ran
        requires { out.old.at ≤ length out.old.buffer.now }
        ensures { Stops (next_of (drop from input.now) from) self from number out.old out.new result }
    {
        let next = look(input, from);
        let Err(Stop::Bad(why)) = next else {
            return self.ran(next, from, number, out.at);
        };
        log_lines::put_bad(&mut *out, number, why.number());
        self.ran(next, from, number, out.at)
    }

    // Puts the last line of the text, where the input ends and `rest` bytes follow its last byte 10.
    pub fn finish(self, rest: usize, number: u64, out: &mut Output<'_>)
        ensures { Puts out.old out.new (end_text self number rest) }
    {
        if rest == 0 {
            log_lines::put_peak(out, self.left, self.right);
        } else {
            log_lines::put_bad(out, number, LineFault::Malformed.number());
        }
    }
}
