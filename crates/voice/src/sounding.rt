// What a channel's ticks are given of it, and the channel after them.
ghost use Rattle.std.specs.Prelude.{◌≡◌, ◌<◌};
ghost use Rattle.registers.specs.Control.{target_channel};
ghost use Rattle.ticks.specs.Oscillators.{target_from};
ghost use Rattle.ticks.specs.Settings.{setting_of};
ghost use Rattle.voice.specs.Sounding.{play_of, kind_of, silent_sound, after_sound, queue_sound_of, after_queue, served_of, window_at};
ghost use Rattle.voice.specs.Sounding.{after_served, stream_sound_of, after_stream};
ghost use Rattle.voice.specs.Kinds.{sounding_of};

use crate::{Channel, Kind, Served, StreamSound};
use registers::WaveformType;
use stream::{Play, Streamed, Window};
use ticks::{QueueSound, Setting, Sides, Sound, Target};
use version::SguVersion;

// A voice that is active, by its waveform.
fn sounding(w: WaveformType) -> Kind
    ensures { result ≡ sounding_of w }
{
    match w {
        WaveformType::Wavetable => Kind::Oscillator,
        WaveformType::Pcm => Kind::Oscillator,
        WaveformType::Noise => Kind::Oscillator,
        WaveformType::DmaPcm => Kind::Oscillator,
        WaveformType::Sqv4 => Kind::Sqv4,
        WaveformType::FifoDac => Kind::FifoDac,
    }
}

impl Channel {
    // How the channel sounds.
    pub fn kind(self) -> Kind
        ensures { result ≡ kind_of self }
    {
        let g = self.registers;
        let w = g.waveform_type;
        let p = self.pcm;
        if p.active {
            return sounding(w);
        }
        Kind::Silent
    }

    // What its ticks take from its registers.
    pub fn setting(self, version: SguVersion) -> Setting
        ensures { result ≡ setting_of self.registers self.pcm.sample_control version }
    {
        let g = self.registers;
        let p = self.pcm;
        Setting::of(g, p.sample_control, version)
    }

    // The channel that modulates it.
    pub fn target_channel(self, ch: usize) -> usize
        ensures { (result ≡ target_channel self.registers ch) × (result < 8) }
    {
        let g = self.registers;
        g.target_channel(ch)
    }

    // What a voice that is modulated by this one looks at.
    pub fn target(self, version: SguVersion) -> Target
        ensures { result ≡ target_from self.oscillator version self.pcm.sample_control }
    {
        let p = self.pcm;
        let o = self.oscillator;
        o.target(version, p.sample_control)
    }

    // What its ticks move, with nothing given to the sides.
    pub fn sound(self) -> Sound
        ensures { result ≡ silent_sound self }
    {
        let oscillator = self.oscillator;
        Sound {
            oscillator,
            sides: Sides::silent(),
        }
    }

    // The channel after an oscillator's ticks.
    pub fn after_sound(mut self, v: Sound) -> Channel
        ensures { result ≡ after_sound self v }
    {
        let o = v.oscillator;
        self.oscillator = o;
        self
    }

    // Its queue, with silent sides, as its ticks begin.
    pub fn queue_sound(self) -> QueueSound
        ensures { result ≡ queue_sound_of self }
    {
        let fifo = self.fifo;
        QueueSound {
            fifo,
            sides: Sides::silent(),
        }
    }

    // The channel after a queue's ticks.
    pub fn after_queue(mut self, v: QueueSound) -> Channel
        ensures { result ≡ after_queue self v }
    {
        let f = v.fifo;
        let mut o = self.oscillator;
        o.last_sample = tone::last_sample(f.held);
        self.oscillator = o;
        self.fifo = f;
        self
    }

    // What a stream's tick takes from its registers.
    pub fn play(self, version: SguVersion) -> Play
        ensures { result ≡ play_of self version }
    {
        let g = self.registers;
        let p = self.pcm;
        Play {
            start: p.start_addr as usize,
            end: p.end_addr as usize,
            loop_addr: p.loop_addr as usize,
            loops: tone::loops(p.control),
            step: tone::sqv4_phase_step(g.frequency),
            wants_v3: version.has_34si22(),
            interpolate: version.interpolates(p.sample_control),
        }
    }

    // What its cache serves from its phase on.
    pub fn window(self) -> Window
        ensures { result ≡ window_at self }
    {
        let cache = self.stream;
        let o = self.oscillator;
        cache.window(tone::whole(o.phase) as usize)
    }

    // No tick served as yet.
    pub fn served(self) -> Served
        ensures { result ≡ served_of self }
    {
        let o = self.oscillator;
        Served {
            ticks: 0,
            phase: o.phase,
            q8: 0,
            sides: Sides::silent(),
        }
    }

    // The channel after ticks that the cache served.
    pub fn after_served(mut self, r: Served) -> Channel
        ensures { result ≡ after_served self r }
    {
        let mut o = self.oscillator;
        o.phase = r.phase;
        o.last_sample = tone::stream_last_sample(r.q8);
        self.oscillator = o;
        self
    }

    // The stream after the ticks that were served.
    pub fn stream_sound(self, r: Served) -> StreamSound
        ensures { result ≡ stream_sound_of self r }
    {
        let cache = self.stream;
        let sides = r.sides;
        let voice = Streamed {
            cache,
            phase: r.phase,
            active: true,
            q8: r.q8,
        };
        StreamSound { voice, sides }
    }

    // The channel after a stream's ticks.
    pub fn after_stream(mut self, v: StreamSound) -> Channel
        ensures { result ≡ after_stream self v }
    {
        let r = v.voice;
        let mut o = self.oscillator;
        let mut p = self.pcm;
        o.phase = r.phase;
        o.last_sample = tone::stream_last_sample(r.q8);
        p.active = r.active;
        let cache = r.cache;
        self.oscillator = o;
        self.pcm = p;
        self.stream = cache;
        self
    }
}
