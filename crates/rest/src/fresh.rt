// A fresh channel, part by part. The tests of a part are one expression without branches.
ghost use Rattle.std.specs.Prelude.{◌≡◌};
ghost use Rattle.rest.specs.Rest.{is_zero, is_fresh_oscillator, is_fresh_fifo, is_no_info, is_emptied};
ghost use Rattle.rest.specs.Rest.{is_fresh_pcm, is_fresh_registers, is_fresh_channel};

use registers::{Fifo, ModulationType, PcmRegisters, Registers, WaveformType};
use stream::{Info, StreamCache};
use ticks::Oscillator;
use voice::Channel;

pub(crate) fn is_zero(x: i16) -> bool
    ensures { result ≡ is_zero x }
{
    x == 0
}

fn is_fresh_oscillator(o: Oscillator) -> bool
    ensures { result ≡ is_fresh_oscillator o }
{
    (o.phase == 0)
        & (o.old_phase == 0)
        & (o.lfsr_state == 0x12D4_803C)
        & is_zero(o.last_sample)
        & (o.slew_current == 0)
}

fn is_fresh_fifo(f: Fifo) -> bool
    ensures { result ≡ is_fresh_fifo f }
{
    (f.head == 0) & (f.count == 0) & is_zero(f.held) & (f.hold == 0) & (f.sub == 0) & (f.latch == 0)
}

fn is_no_info(i: Info) -> bool
    ensures { result ≡ is_no_info i }
{
    (i.version == 0)
        & (i.sample_count == 0)
        & (i.frame_samples == 0)
        & (i.frame_size == 0)
        & (i.loop_sample == 0)
}

fn is_emptied(s: StreamCache) -> bool
    ensures { result ≡ is_emptied s }
{
    let variant = s.variant;
    let info = s.info;
    let even = s.even;
    let odd = s.odd;
    let decoder = s.decoder;
    !s.valid
        & variant.is_none()
        & is_no_info(info)
        & even.is_none()
        & odd.is_none()
        & (s.next_frame == 0)
        & is_zero(decoder.predictor)
        & (decoder.index == 0)
}

fn is_fresh_pcm(p: PcmRegisters) -> bool
    ensures { result ≡ is_fresh_pcm p }
{
    (p.start_addr == 0)
        & (p.end_addr == 0)
        & (p.loop_addr == 0)
        & (p.control == 0)
        & (p.sample_control == 0)
        & p.active
}

#[tactic(auto, unfolding(crate::specs::Rest::is_fresh_registers))]
fn are_fresh_registers(g: Registers) -> bool
    ensures { result ≡ is_fresh_registers g }
{
    (g.frequency == 0)
        & (g.waveform_type == WaveformType::Wavetable)
        & (g.volume == 0)
        & (g.panpot == 255)
        & (g.modulation_type == ModulationType::None)
        & (g.modulation_target == 0)
        & (g.modulation_targeting_mode == 0)
        & (g.modulation_param_1 == 0)
        & (g.modulation_param_2 == 0)
}

// Whether the channel is a fresh one.
pub(crate) fn is_fresh(c: Channel) -> bool
    ensures { result ≡ is_fresh_channel c }
{
    let oscillator = c.oscillator;
    let fifo = c.fifo;
    let stream = c.stream;
    let pcm = c.pcm;
    let registers = c.registers;
    is_fresh_oscillator(oscillator)
        & is_fresh_fifo(fifo)
        & is_emptied(stream)
        & is_fresh_pcm(pcm)
        & are_fresh_registers(registers)
}
