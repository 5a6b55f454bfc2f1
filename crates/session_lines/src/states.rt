// A channel's registers and state as the numbers of a voice line, and back.
ghost use Rattle.std.specs.Prelude.{◌≡◌};
ghost use Rattle.line_fields.specs.Table.{sample_of_number};
ghost use Rattle.session_lines.specs.Numbers.{at, flag as flag_of, low_byte, low_word, low_long, state_numbers, registers_of, pcm_of};
ghost use Rattle.session_lines.specs.Numbers.{oscillator_of, fifo_of, channel_from};

use registers::{Fifo, ModulationType, PcmRegisters, Registers, WaveformType};
use stream::StreamCache;
use ticks::Oscillator;
use version::SguVersion;
use voice::Channel;

fn flag(x: bool) -> u64
    ensures { result ≡ flag_of x }
{
    x as u64
}

pub(crate) fn state_numbers(c: Channel, voice: usize) -> [u64; 25]
    ensures { result ≡ state_numbers voice c }
{
    let g = c.registers;
    let p = c.pcm;
    let o = c.oscillator;
    let f = c.fifo;
    [
        voice as u64,
        g.frequency as u64,
        u8::from(g.waveform_type) as u64,
        g.volume as u64,
        g.panpot as u64,
        u8::from(g.modulation_type) as u64,
        g.modulation_target as u64,
        g.modulation_targeting_mode as u64,
        g.modulation_param_1 as u64,
        g.modulation_param_2 as u64,
        p.start_addr as u64,
        p.end_addr as u64,
        p.loop_addr as u64,
        p.control as u64,
        p.sample_control as u64,
        flag(p.active),
        o.phase,
        o.old_phase,
        o.lfsr_state as u64,
        num::bits16(o.last_sample) as u64,
        o.slew_current as u64,
        num::bits16(f.held) as u64,
        f.hold as u64,
        f.sub as u64,
        f.latch as u64,
    ]
}

// A voice line's numbers, read by their places; one past their end is 0. The line is read as a stored one or as any, and for a
// version.
#[derive(Clone, Copy)]
pub(crate) struct LineNumbers<'a> {
    pub(crate) stored: bool,
    pub(crate) version: SguVersion,
    pub(crate) numbers: &'a [u64],
}

impl LineNumbers<'_> {
    fn number(self, k: usize) -> u64
        ensures { result ≡ at self.entry.numbers.now k }
    {
        line_fields::number_at(self.numbers, k)
    }

    // A number as a register's or a sample's value.
    // Kept as it is: one generic method for the three widths would need a trait with a law for each, and is longer.
    pub(crate) fn byte(self, k: usize) -> u8
        ensures { result ≡ low_byte (at self.entry.numbers.now k) }
    {
        (self.number(k) % 256) as u8
    }

    fn word(self, k: usize) -> u16
        ensures { result ≡ low_word (at self.entry.numbers.now k) }
    {
        (self.number(k) % 65536) as u16
    }

    fn long(self, k: usize) -> u32
        ensures { result ≡ low_long (at self.entry.numbers.now k) }
    {
        (self.number(k) % 4294967296) as u32
    }

    pub(crate) fn sample(self, k: usize) -> i16
        ensures { result ≡ sample_of_number (at self.entry.numbers.now k) }
    {
        line_fields::sample(self.number(k))
    }

    // Which voice it is.
    pub(crate) fn voice(self) -> usize
        ensures { result ≡ at self.entry.numbers.now 0 }
    {
        self.number(0) as usize
    }

    fn registers(self) -> Registers
        ensures { result ≡ registers_of (at self.entry.numbers.now) }
    {
        Registers {
            frequency: self.word(1),
            waveform_type: WaveformType::from(self.byte(2)),
            volume: self.byte(3),
            panpot: self.byte(4),
            modulation_type: ModulationType::from(self.byte(5)),
            modulation_target: self.byte(6),
            modulation_targeting_mode: self.byte(7),
            modulation_param_1: self.word(8),
            modulation_param_2: self.word(9),
        }
    }

    fn pcm(self) -> PcmRegisters
        ensures { result ≡ pcm_of (at self.entry.numbers.now) }
    {
        PcmRegisters {
            start_addr: self.long(10),
            end_addr: self.long(11),
            loop_addr: self.long(12),
            control: self.byte(13),
            sample_control: self.byte(14),
            active: self.number(15) == 1,
        }
    }

    fn oscillator(self) -> Oscillator
        ensures { result ≡ oscillator_of (at self.entry.numbers.now) }
    {
        Oscillator {
            phase: self.number(16),
            old_phase: self.number(17),
            lfsr_state: self.long(18),
            last_sample: self.sample(19),
            slew_current: self.word(20),
        }
    }

    // The queue's head is at 0.
    pub(crate) fn fifo(self) -> Fifo
        ensures { result ≡ fifo_of (at self.entry.numbers.now) }
    {
        Fifo {
            head: 0,
            count: self.number(281) as usize,
            held: self.sample(21),
            hold: self.long(22),
            sub: self.byte(23),
            latch: self.byte(24),
        }
    }

    // With a queue; the cache is empty.
    pub(crate) fn channel(self, queue: Fifo) -> Channel
        ensures { result ≡ channel_from (at self.entry.numbers.now) queue }
    {
        Channel {
            oscillator: self.oscillator(),
            fifo: queue,
            stream: StreamCache::default(),
            pcm: self.pcm(),
            registers: self.registers(),
        }
    }
}
