// A voice's state, and its cache, set whole.
ghost use Rattle.std.specs.Prelude.{◌+◌, ◌≤◌};
ghost use Rattle.sizes.specs.Sizes.{fifo_capacity};

use crate::fields::{reading as fields, seeds};
use adpcm::{State, Variant};
use cores::CHIP_QUEUES;
use registers::{Fifo, ModulationType, PcmRegisters, Registers, WaveformType};
use sizes::{FIFO_CAPACITY, WAVETABLES_SIZE};
use stream::{Info, StreamCache};
use ticks::Oscillator;
use voice::Channel;
use voices::Core;

fn registers_of(line: &[u64]) -> Registers {
    Registers {
        frequency: fields::short(line, 2),
        waveform_type: WaveformType::from(fields::byte(line, 3)),
        volume: fields::byte(line, 4),
        panpot: fields::byte(line, 5),
        modulation_type: ModulationType::from(fields::byte(line, 6)),
        modulation_target: fields::byte(line, 7),
        modulation_targeting_mode: fields::byte(line, 8),
        modulation_param_1: fields::short(line, 9),
        modulation_param_2: fields::short(line, 10),
    }
}

fn pcm_of(line: &[u64]) -> PcmRegisters {
    PcmRegisters {
        start_addr: fields::word(line, 11),
        end_addr: fields::word(line, 12),
        loop_addr: fields::word(line, 13),
        control: fields::byte(line, 14),
        sample_control: fields::byte(line, 15),
        active: fields::long(line, 16) != 0,
    }
}

fn oscillator_of(line: &[u64]) -> Oscillator {
    Oscillator {
        phase: fields::long(line, 17),
        old_phase: fields::long(line, 18),
        lfsr_state: fields::word(line, 19),
        last_sample: fields::short(line, 20).cast_signed(),
        slew_current: fields::short(line, 21),
    }
}

fn fifo_of(line: &[u64]) -> Fifo {
    Fifo {
        head: fields::size(line, 26),
        count: fields::size(line, 27),
        held: fields::short(line, 22).cast_signed(),
        hold: fields::word(line, 23),
        sub: fields::byte(line, 24),
        latch: fields::byte(line, 25),
    }
}

// Where a voice's queue lies among its own entries of the queue buffer: so many of the oldest from `head` on, the others from the
// beginning on.
#[derive(Clone, Copy)]
pub(crate) struct Ring {
    pub head: usize,
    pub oldest: usize,
    pub others: usize,
}

pub(crate) fn ring_of(fifo: Fifo) -> Ring
    ensures oldest { result.head + result.oldest ≤ fifo_capacity }
    ensures others { result.others ≤ fifo_capacity }
{
    let head = fifo.head % FIFO_CAPACITY;
    let count = fifo.count.min(FIFO_CAPACITY);
    let oldest = count.min(FIFO_CAPACITY - head);
    Ring {
        head,
        oldest,
        others: count - oldest,
    }
}

// Puts the entries of the queue that an E line tells of a core's voice, oldest first, from its seed.
pub(crate) fn fill_queue(queues: &mut [i16], core: usize, line: &[u64]) {
    if fields::letter(line) == b'E' {
        if CHIP_QUEUES <= queues.len() {
            let voice = 8 * (core % 2) + fields::size(line, 1) % 8;
            let from = voice * FIFO_CAPACITY;
            let own = &mut queues[from..from + FIFO_CAPACITY];
            let r = ring_of(fifo_of(line));
            let end = r.head + r.oldest;
            let seed = seeds::fill(&mut own[r.head..end], fields::long(line, 28));
            seeds::fill(&mut own[..r.others], seed);
        }
    }
}

// The voice's wavetable from a seed; from 0 that of a fresh voice.
fn fill_wavetable(wavetables: &mut [u8; WAVETABLES_SIZE], ch: usize, seed: u64) {
    let at = ch % 8 * 256;
    let own = &mut wavetables[at..at + 256];
    if seed == 0 {
        own.fill(128);
        return;
    }
    let mut x = seed;
    for byte in own.iter_mut() {
        x = seeds::next_seed(x);
        *byte = (seeds::bits_of(x) % 256) as u8;
    }
}

fn held_of(n: u64) -> Option<Variant> {
    match n {
        1 => Some(Variant::H),
        2 => Some(Variant::L),
        3 => Some(Variant::LPlus),
        _ => None,
    }
}

fn cached_of(n: u64) -> Option<usize> {
    if n == 0 {
        return None;
    }
    Some((n - 1) as usize)
}

fn cache_of(line: &[u64]) -> StreamCache {
    StreamCache {
        valid: fields::long(line, 2) != 0,
        variant: held_of(fields::long(line, 4)),
        info: Info {
            version: fields::byte(line, 3),
            sample_count: fields::size(line, 5),
            frame_samples: fields::size(line, 6),
            frame_size: fields::size(line, 7),
            loop_sample: fields::size(line, 8),
        },
        even: cached_of(fields::long(line, 9)),
        odd: cached_of(fields::long(line, 10)),
        next_frame: fields::size(line, 11),
        decoder: State {
            predictor: fields::short(line, 12).cast_signed(),
            index: fields::size(line, 13),
        },
    }
}

// The voice's decoded samples from a seed; from 0 they are 0.
fn fill_fragments(fragments: &mut [i16; 1024], ch: usize, seed: u64) {
    let at = ch % 8 * 128;
    let own = &mut fragments[at..at + 128];
    if seed == 0 {
        own.fill(0);
        return;
    }
    seeds::fill(own, seed);
}

// The voice that an E line tells, with the cache that it had, or with the cache that an F line tells.
fn voice_of(mut old: Channel, line: &[u64]) -> Channel {
    if fields::letter(line) == b'F' {
        old.stream = cache_of(line);
        return old;
    }
    let stream = old.stream;
    Channel {
        oscillator: oscillator_of(line),
        fifo: fifo_of(line),
        stream,
        pcm: pcm_of(line),
        registers: registers_of(line),
    }
}

fn with_voice(mut core: Core, line: &[u64]) -> Core {
    let ch = fields::size(line, 1) % 8;
    let old = core.channels[ch];
    core.channels[ch] = voice_of(old, line);
    core
}

// A core with what a line tells of a voice, but for its queue's entries.
pub(crate) fn changed(core: Core, line: &[u64]) -> Core {
    let mut next = with_voice(core, line);
    let ch = fields::size(line, 1);
    if fields::letter(line) == b'F' {
        fill_fragments(&mut next.fragments, ch, fields::long(line, 14));
    } else {
        fill_wavetable(&mut next.wavetables, ch, fields::long(line, 29));
    }
    next
}
