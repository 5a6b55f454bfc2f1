// The lines of an input, one after the other.
ghost use Rattle.std.specs.Prelude.{◌≡◌, true, [], ◌+◌, ◌≤◌, ◌<◌, ◌^◌, length};
ghost use Rattle.std.proofs.lemmas.List.Edits.{sets};
ghost use Rattle.log_player.specs.Worlds.{world};
ghost use Rattle.log_player.specs.Runs.{has_room_of, spot, run_from, refused_by, log_run, ran_to};

use crate::{Player, ROOM, Ran, Stop};
use output::Output;

// Whether so much room is left behind `end`, and there is a number for the line behind line `number`.
pub fn has_room(room: usize, length: usize, end: usize, number: u64) -> bool
    ensures result { result ≡ has_room_of room length end number }
    ensures number_bound { result ≡ true → number + 1 < 2 ^ 64 }
{
    if number == 0xffff_ffff_ffff_ffff {
        return false;
    }
    if length < end {
        return false;
    }
    room <= length - end
}

impl Player {
    // Plays the lines from `from` on, of which the first is the log's line `number`, and puts what they print into out: until
    // no whole line is left, a line is bad, or out may have no room for the next line's text. Where the chip refuses calls over
    // this RAM and queue buffer nothing is played or printed.
    pub fn run(
        self,
        input: &[u8],
        from: usize,
        number: u64,
        ram: &mut [u8],
        queues: &mut [i16],
        out: &mut [u8],
    ) -> Ran
        ensures result { result ≡ ran_to
            (log_run (length out.old) input.now (spot (world self ram.old queues.old) number from [])) }
        ensures ram { ram.new
            ≡ (log_run (length out.old) input.now
            (spot (world self ram.old queues.old) number from [])).world.ram }
        ensures queues { queues.new
            ≡ (log_run (length out.old) input.now
            (spot (world self ram.old queues.old) number from [])).world.queues }
        ensures out { out.new
            ≡ sets out.old 0
            (log_run (length out.old) input.now
            (spot (world self ram.old queues.old) number from [])).text }
        ensures bound { length (log_run (length out.old) input.now
            (spot (world self ram.old queues.old) number from [])).text ≤ length out.old }
    {
        let chip = self.chip;
        if let Err(refusal) = chip.refusal_of_sound(ram.len(), queues.len()) {
            return self.ran(Err(Stop::Refused(refusal)), from, number, 0);
        }
        self.run_lines(input, from, number, ram, queues, out)
    }

    // The same where they are not refused.
    fn run_lines(
        self,
        input: &[u8],
        from: usize,
        number: u64,
        ram: &mut [u8],
        queues: &mut [i16],
        out: &mut [u8],
    ) -> Ran
        requires { refused_by (world self ram.old queues.old) ≡ 0 }
        ensures result { result ≡ ran_to
            (run_from (length out.old) input.now (spot (world self ram.old queues.old) number from [])) }
        ensures ram { ram.new
            ≡ (run_from (length out.old) input.now
            (spot (world self ram.old queues.old) number from [])).world.ram }
        ensures queues { queues.new
            ≡ (run_from (length out.old) input.now
            (spot (world self ram.old queues.old) number from [])).world.queues }
        ensures out { out.new
            ≡ sets out.old 0
            (run_from (length out.old) input.now
            (spot (world self ram.old queues.old) number from [])).text }
        ensures bound { length (run_from (length out.old) input.now
            (spot (world self ram.old queues.old) number from [])).text ≤ length out.old }
    {
        let mut player = self;
        let mut place = from;
        let mut line = number;
        let mut text = Output { buffer: out, at: 0 };
        // Kept as it is: a turn plays as many lines as there is room for, so there is no range or chain to go over.
        while has_room(ROOM, text.buffer.len(), text.at, line) {
            let batch = player.batch(input, place, line, &mut *ram, &mut *queues, &mut text);
            let first = line;
            player = batch.player;
            place = batch.from;
            line = batch.number;
            if line == first {
                return player.stop(input, place, line, &mut text);
            }
        }
        player.ran(Ok(Some(place)), place, line, text.at)
    }
}
