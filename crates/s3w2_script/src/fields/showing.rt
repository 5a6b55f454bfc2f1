// A voice's state, printed whole.
use crate::fields::reading::{letter, size};
use crate::fields::setting::ring_of;
use crate::fields::writing;
use adpcm::Variant;
use cores::{CHIP_QUEUES, CHIP_VOICES};
use output::Output;
use registers::{Fifo, PcmRegisters, Registers};
use sizes::FIFO_CAPACITY;
use stream::StreamCache;
use voice::Channel;
use voices::Core;

fn registers_numbers(g: Registers) -> [u64; 9] {
    [
        g.frequency as u64,
        u8::from(g.waveform_type) as u64,
        g.volume as u64,
        g.panpot as u64,
        u8::from(g.modulation_type) as u64,
        g.modulation_target as u64,
        g.modulation_targeting_mode as u64,
        g.modulation_param_1 as u64,
        g.modulation_param_2 as u64,
    ]
}

fn pcm_numbers(p: PcmRegisters) -> [u64; 6] {
    [
        p.start_addr as u64,
        p.end_addr as u64,
        p.loop_addr as u64,
        p.control as u64,
        p.sample_control as u64,
        u64::from(p.active),
    ]
}

// Behind the phase.
fn moving_numbers(c: Channel) -> [u64; 8] {
    let o = c.oscillator;
    let f = c.fifo;
    [
        o.old_phase,
        o.lfsr_state as u64,
        writing::sample_bits(o.last_sample),
        o.slew_current as u64,
        writing::sample_bits(f.held),
        f.hold as u64,
        f.sub as u64,
        f.latch as u64,
    ]
}

fn held_number(held: Option<Variant>) -> u64 {
    match held {
        None => 0,
        Some(Variant::H) => 1,
        Some(Variant::L) => 2,
        Some(Variant::LPlus) => 3,
    }
}

fn cached_number(cached: Option<usize>) -> u64 {
    match cached {
        None => 0,
        Some(f) => (f as u64).wrapping_add(1),
    }
}

fn cache_numbers(s: StreamCache) -> [u64; 12] {
    let held = s.variant;
    let info = s.info;
    let even = s.even;
    let odd = s.odd;
    let decoder = s.decoder;
    [
        u64::from(s.valid),
        info.version as u64,
        held_number(held),
        info.sample_count as u64,
        info.frame_samples as u64,
        info.frame_size as u64,
        info.loop_sample as u64,
        cached_number(even),
        cached_number(odd),
        s.next_frame as u64,
        writing::sample_bits(decoder.predictor),
        decoder.index as u64,
    ]
}

fn put_registers(out: &mut Output<'_>, c: Channel) {
    writing::put_numbers(&mut *out, &registers_numbers(c.registers));
    writing::put_numbers(out, &pcm_numbers(c.pcm));
}

// The phase may be any number of 64 bits.
fn put_channel(out: &mut Output<'_>, c: Channel) {
    let oscillator = c.oscillator;
    put_registers(&mut *out, c);
    writing::put(&mut *out, oscillator.phase);
    writing::put_numbers(&mut *out, &moving_numbers(c));
    writing::put_numbers(out, &cache_numbers(c.stream));
}

// The queue's count and its entries, oldest first.
fn put_queue(out: &mut Output<'_>, f: Fifo, queues: &[i16], voice: usize) {
    writing::put(&mut *out, f.count as u64);
    if queues.len() < CHIP_QUEUES {
        return;
    }
    let from = voice % CHIP_VOICES * FIFO_CAPACITY;
    let own = &queues[from..from + FIFO_CAPACITY];
    let r = ring_of(f);
    writing::put_samples(&mut *out, &own[r.head..r.head + r.oldest]);
    writing::put_samples(out, &own[..r.others]);
}

// A voice's registers, its state and its wavetable.
fn put_first(out: &mut Output<'_>, core: Core, k: usize) {
    let ch = k % 8;
    let c = core.channels[ch];
    put_channel(&mut *out, c);
    writing::put_bytes(out, num::part(&core.wavetables, 256 * ch, 256 * ch + 256));
}

// Its queue and its decoded fragments.
fn put_last(out: &mut Output<'_>, core: Core, voice: usize, queues: &[i16]) {
    let ch = voice % 8;
    let c = core.channels[ch];
    put_queue(&mut *out, c.fifo, queues, voice);
    let fragments = core.fragments;
    writing::put_samples(out, &fragments[128 * ch..128 * ch + 128]);
}

// Puts the voice that a D line names, of the core of a number; of another line nothing.
pub(crate) fn put_voice(
    out: &mut Output<'_>,
    core: Core,
    number: usize,
    line: &[u64],
    queues: &[i16],
) {
    if letter(line) == b'D' {
        let k = size(line, 1) % 8;
        put_first(&mut *out, core, k);
        put_last(out, core, 8 * (number % 2) + k, queues);
    }
}
