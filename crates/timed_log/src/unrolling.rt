// Times written out: frames as `C` lines, and each line as a plain log has it.
ghost use Rattle.std.specs.Prelude.{◌≡◌, true, [], ◌++◌, ◌+◌, ◌-◌, ◌≤◌, ◌<◌, ◌^◌, length};
ghost use Rattle.std.proofs.lemmas.List.Edits.{sets};
ghost use Rattle.output.specs.Output.{Puts};
ghost use Rattle.num.specs.Lists.{part};
ghost use Rattle.timed_log.specs.Lines.{frame_most, due_already};
ghost use Rattle.timed_log.specs.Unrolled.{clock_most, clock_text, clockwork, applied};
ghost use Rattle.timed_log.specs.Unrolls.{gap_text, reach, unroll_from, unrolled_as, unrolled_to};

use crate::{Clockwork, Unrolled};
use log_player::has_room;
use output::Output;

// A `C` line has at most so many frames.
const MOST_FRAMES: u32 = 1000;

// Room for a `C` line and a line: 7 bytes, and 17.
const ROOM: usize = 32;

// Puts the line that sounds so many frames.
fn put_clock(out: &mut Output<'_>, frames: u32)
    ensures { Puts out.old out.new (clock_text frames) }
{
    decimal::put_line(out, b"C,", frames as u64);
}

// Puts the line that sounds the frames before a line, if there are any, and the line.
fn put_line(out: &mut Output<'_>, gap: u32, line: &[u8])
    ensures { Puts out.old out.new (gap_text gap ++ line.now) }
{
    if gap != 0 {
        put_clock(&mut *out, gap);
    }
    out.put_bytes(line);
}

impl Clockwork {
    // A line with this stamp is written out.
    fn applied(self, stamp: u32) -> Clockwork
        requires { due_already self stamp < frame_most }
        ensures { result ≡ applied self stamp }
    {
        if stamp == self.frames {
            return Clockwork {
                frames: stamp,
                lines: self.lines + 1,
            };
        }
        Clockwork {
            frames: stamp,
            lines: 1,
        }
    }

    // A thousand frames are written out.
    fn sounded(self) -> Clockwork
        requires { self.frames + clock_most < 2 ^ 32 }
        ensures { result ≡ clockwork (self.frames + clock_most) 0 }
    {
        Clockwork {
            frames: self.frames + MOST_FRAMES,
            lines: 0,
        }
    }

    // Writes out the lines from `from` on, of which the first is the log's line `number`: until no whole line is left, a line is bad, or
    // there may be no room for the next one.
    pub fn unroll(self, input: &[u8], from: usize, number: u64, plain: &mut [u8]) -> Unrolled
        ensures result { result ≡ unrolled_to (unroll_from (length plain.old) input.now (reach self number from [])) }
        ensures plain { plain.new
            ≡ sets plain.old 0 (unroll_from (length plain.old) input.now (reach self number from [])).text }
        ensures bound { length (unroll_from (length plain.old) input.now (reach self number from [])).text
            ≤ length plain.old }
    {
        let mut clock = self;
        let mut place = from;
        let mut line = number;
        let mut text = Output {
            buffer: plain,
            at: 0,
        };
        // Kept as it is: a turn writes out a line, or a thousand frames of the gap before it, so there is no range or chain to go over.
        while has_room(ROOM, text.buffer.len(), text.at, line) {
            let Ok(Some(due)) = clock.next_due(input, place) else {
                return clock.unrolled(place, line, text.at);
            };
            let gap = due.stamp - clock.frames;
            if MOST_FRAMES < gap {
                put_clock(&mut text, MOST_FRAMES);
                clock = clock.sounded();
            } else {
                put_line(&mut text, gap, num::part(input, due.from, due.to));
                clock = clock.applied(due.stamp);
                place = due.to;
                line += 1;
            }
        }
        clock.unrolled(place, line, text.at)
    }

    fn unrolled(self, from: usize, number: u64, end: usize) -> Unrolled
        ensures { result ≡ unrolled_as self from number end }
    {
        Unrolled {
            clock: self,
            from,
            number,
            end,
        }
    }
}
