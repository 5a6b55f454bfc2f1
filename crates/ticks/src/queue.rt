// A queue's ticks. The volume does not apply.
ghost use Rattle.std.specs.Prelude.{◌≡◌};
ghost use Rattle.ticks.specs.Mix.{Adds};
ghost use Rattle.ticks.specs.Queues.{queue_tick, queue_ticks};

use crate::QueueSound;
use registers::Registers;

impl QueueSound {
    fn step(self, g: Registers, queue: &mut [i16]) -> QueueSound
        ensures result { result ≡ queue_tick g.frequency g.panpot queue.old self }
        ensures adds { Adds 1 self.sides result.sides }
        ensures queue { queue.new ≡ queue.old }
    {
        let f = self.fifo;
        let old = self.sides;
        let fifo = f.tick(queue, g.frequency);
        let sides = old.with_sample(fifo.held, g.panpot);
        QueueSound { fifo, sides }
    }

    // Some ticks of a FIFO voice.
    pub fn run(self, n: usize, g: Registers, queue: &mut [i16]) -> QueueSound
        ensures result { result ≡ queue_ticks n g.frequency g.panpot queue.old self }
        ensures adds { Adds n self.sides result.sides }
        ensures queue { queue.new ≡ queue.old }
    {
        let mut v = self;
        for k in 0..n {
            v = v.step(g, &mut *queue);
        }
        v
    }
}
