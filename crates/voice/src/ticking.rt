// One tick of a channel with what is lent beside it: wavetables, decoded fragments, the RAM, its own entries of the queue
// buffer, and what modulates it.
ghost use Rattle.std.specs.Prelude.{◌≡◌};
ghost use Rattle.ticks.specs.Mix.{silence};
ghost use Rattle.voice.specs.Streaming.{lent};
ghost use Rattle.voice.specs.Ticking.{channel_sound, channel_stream, beside, channel_tick};

use crate::{Channel, ChannelTick, Kind, StreamSound};
use sizes::WAVETABLES_SIZE;
use ticks::{Sides, Sound, Target};
use version::SguVersion;

impl Channel {
    fn sound_tick(
        self,
        version: SguVersion,
        wavetables: &[u8; WAVETABLES_SIZE],
        ram: &[u8],
        ch: usize,
        t: Target,
    ) -> Sound
        ensures { result ≡ channel_sound version wavetables.now ram.now ch t 1 silence self }
    {
        let s = self.setting(version);
        let own = self.target_channel(ch) == ch;
        self.sound().run(1, self.registers, s, self.pcm, wavetables, ram, ch, own, t)
    }

    fn stream_tick(
        self,
        version: SguVersion,
        fragments: &mut [i16; 1024],
        base: usize,
        ram: &[u8],
    ) -> StreamSound
        ensures { lent result fragments.new
            ≡ channel_stream version fragments.old base ram.now 1 silence self }
    {
        let p = self.play(version);
        self.stream_sound(self.served())
            .run_at(1, self.registers, fragments, base, ram, p)
    }

    // One tick of the voice: the channel after it, and what it gave to the two sides. The channel's number, of which the
    // remainder by 8 counts, is its place in the tables.
    pub fn tick(
        mut self,
        version: SguVersion,
        wavetables: &[u8; WAVETABLES_SIZE],
        fragments: &mut [i16; 1024],
        ram: &[u8],
        queue: &mut [i16],
        ch: usize,
        t: Target,
    ) -> ChannelTick
        ensures fragments_after { beside result fragments.new
            ≡ channel_tick version wavetables.now fragments.old ram.now queue.old ch t self }
        ensures queue_unchanged { queue.new ≡ queue.old }
    {
        let mut sides = Sides::silent();
        match self.kind() {
            Kind::Silent => {}
            Kind::Oscillator => {
                let v = self.sound_tick(version, wavetables, ram, ch, t);
                sides = v.sides;
                self = self.after_sound(v);
            }
            Kind::Sqv4 => {
                let v = self.stream_tick(version, fragments, (ch & 7) * 128, ram);
                sides = v.sides;
                self = self.after_stream(v);
            }
            Kind::FifoDac => {
                let v = self.queue_sound().run(1, self.registers, queue);
                sides = v.sides;
                self = self.after_queue(v);
            }
        }
        ChannelTick {
            channel: self,
            sides,
        }
    }
}
