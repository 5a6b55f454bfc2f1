// A timed log played: what was written out is played, and where nothing is left of it, lines are written out.
ghost use Rattle.std.specs.Prelude.{◌≡◌, [], ◌≤◌, length};
ghost use Rattle.std.proofs.lemmas.List.Edits.{sets};
ghost use Rattle.output.specs.Output.{Puts};
ghost use Rattle.s3w2.specs.Fresh.{made_ram};
ghost use Rattle.log_player.specs.Worlds.{world};
ghost use Rattle.log_player.specs.Runs.{stop_text};
ghost use Rattle.timed_log.specs.Turns.{made_timed, standing, left_of, goes_on, next_at, played_on, told, written_out, turn_over, timed_to};

use crate::{Ahead, Clockwork, MadeTimed, Timed, TimedRan};
use log_player::{Next, Player};
use output::Output;

// What is left of a text that was played to `from`: nothing where no whole line is.
fn left_of(end: usize, from: usize, next: Next) -> usize
    ensures { result ≡ left_of end from next }
{
    match next {
        Ok(None) => end,
        _ => from,
    }
}

// What comes next behind such a text.
fn goes_on(place: usize, next: Next) -> Next
    ensures { result ≡ goes_on place next }
{
    next?;
    Ok(Some(place))
}

// What comes next where nothing was written out.
fn next_at(place: usize, found: Ahead) -> Next
    ensures { result ≡ next_at place found }
{
    Ok(found?.map(|_| place))
}

// A bad line is told.
fn put_stop(found: Ahead, place: usize, number: u64, out: &mut Output<'_>)
    requires { out.old.at ≤ length out.old.buffer.now }
    ensures { Puts out.old out.new (stop_text number (next_at place found)) }
{
    if let Err(why) = found {
        log_lines::put_bad(out, number, why.number());
    }
}

impl Timed {
    // A fresh player, nothing written out; its RAM is zeroed, unless its length is refused.
    pub fn fresh(ram: &mut [u8]) -> MadeTimed
        ensures result { result ≡ made_timed (length ram.old) }
        ensures ram { ram.new ≡ made_ram ram.old }
    {
        let made = Player::fresh(ram);
        let player = made.player;
        let answer = made.answer;
        let timed = Timed {
            player,
            clock: Clockwork::default(),
            from: 0,
            end: 0,
        };
        MadeTimed { timed, answer }
    }

    // Plays on in the text that was written out.
    fn play(
        self,
        from: usize,
        number: u64,
        plain: &[u8],
        ram: &mut [u8],
        queues: &mut [i16],
        out: &mut [u8],
    ) -> TimedRan
        ensures result { result ≡ timed_to (length out.old)
            (played_on (length out.old) (standing self ram.old queues.old plain.now from number)) }
        ensures ram { ram.new
            ≡ (played_on (length out.old) (standing self ram.old queues.old plain.now from number)
            ).stand.world.ram }
        ensures queues { queues.new
            ≡ (played_on (length out.old) (standing self ram.old queues.old plain.now from number)
            ).stand.world.queues }
        ensures out { out.new ≡ sets out.old 0
            (played_on (length out.old) (standing self ram.old queues.old plain.now from number)
            ).text }
    {
        let player = self.player;
        let ran = player.run(
            num::part(plain, 0, self.end),
            self.from,
            1,
            ram,
            queues,
            out,
        );
        let after = ran.player;
        let next = ran.next;
        let clock = self.clock;
        let timed = Timed {
            player: after,
            clock,
            from: left_of(self.end, ran.from, next),
            end: self.end,
        };
        TimedRan {
            timed,
            next: goes_on(from, next),
            from,
            number,
            end: ran.end,
        }
    }

    // Tells what stands in the input where no line is written out.
    fn tell(self, input: &[u8], from: usize, number: u64, out: &mut [u8]) -> TimedRan
        ensures result { result ≡ timed_to (length out.old) (told input.now (standing self [] [] [] from number)) }
        ensures out { out.new ≡ sets out.old 0 (told input.now (standing self [] [] [] from number)).text }
    {
        let player = self.player;
        let clock = self.clock;
        let found = clock.next_due(input, from);
        let mut text = Output { buffer: out, at: 0 };
        put_stop(found, from, number, &mut text);
        let timed = Timed {
            player,
            clock,
            from: 0,
            end: 0,
        };
        TimedRan {
            timed,
            next: next_at(from, found),
            from,
            number,
            end: text.at,
        }
    }

    // Writes out lines.
    fn write_out(
        self,
        input: &[u8],
        from: usize,
        number: u64,
        plain: &mut [u8],
        out: &mut [u8],
    ) -> TimedRan
        ensures result { result ≡ timed_to (length out.old)
            (written_out input.now (standing self [] [] plain.old from number)) }
        ensures plain { plain.new
            ≡ (written_out input.now (standing self [] [] plain.old from number)).stand.plain }
        ensures out { out.new
            ≡ sets out.old 0 (written_out input.now (standing self [] [] plain.old from number)).text }
    {
        let clock = self.clock;
        let unrolled = clock.unroll(input, from, number, plain);
        if unrolled.end == 0 {
            return self.tell(input, from, number, out);
        }
        let player = self.player;
        let after = unrolled.clock;
        let timed = Timed {
            player,
            clock: after,
            from: 0,
            end: unrolled.end,
        };
        TimedRan {
            timed,
            next: Ok(Some(unrolled.from)),
            from: unrolled.from,
            number: unrolled.number,
            end: 0,
        }
    }

    // A turn of a log, whose line `number` stands at `from` of the input: plays on in what was written out, or writes out lines. What it
    // prints is put into out. `Ok(Some(_))`: another turn is to follow; `Ok(None)`: all of the input's whole lines are played.
    // Where the chip refuses calls over this RAM and queue buffer nothing is played or printed.
    pub fn run(
        self,
        input: &[u8],
        from: usize,
        number: u64,
        plain: &mut [u8],
        ram: &mut [u8],
        queues: &mut [i16],
        out: &mut [u8],
    ) -> TimedRan
        ensures result { result ≡ timed_to (length out.old) (turn_over (length out.old) input.now
            (standing self ram.old queues.old plain.old from number)) }
        ensures plain { plain.new ≡ (turn_over (length out.old) input.now
            (standing self ram.old queues.old plain.old from number)).stand.plain }
        ensures ram { ram.new ≡ (turn_over (length out.old) input.now
            (standing self ram.old queues.old plain.old from number)).stand.world.ram }
        ensures queues { queues.new ≡ (turn_over (length out.old) input.now
            (standing self ram.old queues.old plain.old from number)).stand.world.queues }
        ensures out { out.new ≡ sets out.old 0 (turn_over (length out.old) input.now
            (standing self ram.old queues.old plain.old from number)).text }
    {
        if self.from < self.end {
            return self.play(from, number, &*plain, ram, queues, out);
        }
        self.write_out(input, from, number, plain, out)
    }
}
