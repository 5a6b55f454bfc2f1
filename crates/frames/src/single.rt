// One tick of one voice, by the voice's own method.
ghost use Rattle.std.specs.Prelude.{◌≡◌};
ghost use Rattle.frames.specs.Turning.{single_tick, after_turns};

use crate::{Round, Turned};
use sizes::{FIFO_CAPACITY, QUEUE_BUFFER};
use version::SguVersion;
use voices::Core;

// The voice at a channel's number, of which the remainder by 8 counts. A queue buffer of another length gives no tick.
pub fn tick(core: Core, version: SguVersion, ram: &[u8], queues: &mut [i16], ch: usize) -> Turned
    ensures result { result ≡ after_turns (single_tick version ram.now queues.old ch core) }
    ensures queues { queues.new ≡ queues.old }
{
    if queues.len() != QUEUE_BUFFER {
        return Turned { core, sample: 0 };
    }
    let mut core = core;
    let of = Round { version, first: ch };
    let at = of.channel(0);
    let c = core.channels[at];
    let a = c.target_channel(at);
    let t = of.target(core.channels[a]);
    let wavetables = core.wavetables;
    let from = at * FIFO_CAPACITY;
    let to = from + FIFO_CAPACITY;
    let r = c.tick(
        version,
        &wavetables,
        &mut core.fragments,
        ram,
        &mut queues[from..to],
        at,
        t,
    );
    let next = r.channel;
    let sides = r.sides;
    core.channels[at] = next;
    Turned {
        core,
        sample: sides.sample,
    }
}
