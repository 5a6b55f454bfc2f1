// The end of a timed log.
ghost use Rattle.std.specs.Prelude.{◌≡◌, [], ◌≤◌, length};
ghost use Rattle.std.proofs.lemmas.List.Edits.{sets};
ghost use Rattle.output.specs.Output.{Put, Puts};
ghost use Rattle.log_player.specs.Worlds.{world};
ghost use Rattle.log_player.specs.Runs.{ran_to};
ghost use Rattle.timed_log.specs.Ends.{sounds_last, last_run, told_last, last_told};

use crate::{Clockwork, Finished, Timed};
use log_player::{Next, Player, Ran};
use output::Output;

impl Clockwork {
    // Whether the frame of the last stamp is still to sound, where the input ends and `rest` bytes follow its last byte 10.
    fn sounds_last(self, rest: usize) -> bool
        ensures { result ≡ sounds_last self rest }
    {
        if rest == 0 {
            return 0 < self.lines;
        }
        false
    }
}

// Puts the last line, where all has been played.
fn put_last(next: Next, player: Player, rest: usize, number: u64, out: &mut Output<'_>)
    requires { out.old.at ≤ length out.old.buffer.now }
    ensures { Puts out.old out.new (told_last (world player [] []) number rest next) }
{
    if let Ok(None) = next {
        player.finish(rest, number, out);
    }
}

impl Timed {
    // Sounds the frame of the last stamp.
    fn last_frame(self, rest: usize, ram: &mut [u8], queues: &mut [i16], out: &mut [u8]) -> Ran
        ensures result { result
            ≡ ran_to (last_run (length out.old) (world self.player ram.old queues.old) self.clock rest) }
        ensures ram { ram.new
            ≡ (last_run (length out.old) (world self.player ram.old queues.old) self.clock rest).world.ram }
        ensures queues { queues.new
            ≡ (last_run (length out.old) (world self.player ram.old queues.old) self.clock rest
            ).world.queues }
        ensures out { out.new ≡ sets out.old 0
            (last_run (length out.old) (world self.player ram.old queues.old) self.clock rest).text }
        ensures bound { length (last_run (length out.old) (world self.player ram.old queues.old)
            self.clock rest).text ≤ length out.old }
    {
        let player = self.player;
        let clock = self.clock;
        if clock.sounds_last(rest) {
            return player.run(b"C,1\n", 0, 1, ram, queues, out);
        }
        Ran {
            player,
            next: Ok(None),
            from: 0,
            number: 1,
            end: 0,
        }
    }

    // Sounds the frame of the last stamp and puts the last line of the text, where the input ends and `rest` bytes follow its last
    // byte 10. `Ok(None)`: that was done.
    pub fn finish(
        self,
        rest: usize,
        number: u64,
        ram: &mut [u8],
        queues: &mut [i16],
        out: &mut [u8],
    ) -> Finished
        ensures next { result.next
            ≡ (last_run (length out.old) (world self.player ram.old queues.old) self.clock rest).next }
        ensures put { Put out.old out.new 0 (last_told number rest
            (last_run (length out.old) (world self.player ram.old queues.old) self.clock rest)) result.end }
        ensures ram { ram.new
            ≡ (last_run (length out.old) (world self.player ram.old queues.old) self.clock rest).world.ram }
        ensures queues { queues.new
            ≡ (last_run (length out.old) (world self.player ram.old queues.old) self.clock rest
            ).world.queues }
    {
        let ran = self.last_frame(rest, ram, queues, &mut *out);
        let after = ran.player;
        let next = ran.next;
        let mut text = Output {
            buffer: out,
            at: ran.end,
        };
        put_last(next, after, rest, number, &mut text);
        Finished { next, end: text.at }
    }
}
