// A voice's registers: waveforms and modulations, what is written and read at an offset, the queue.
#![tactic(auto)]

mod bytes;
mod control;
mod pcm;
mod queue;
mod waveforms;

#[derive(Clone, Copy, Debug, PartialEq, Eq)]
pub enum WaveformType {
    Wavetable,
    Pcm,
    Noise,
    DmaPcm,
    Sqv4,
    FifoDac,
}

#[derive(Clone, Copy, Debug, PartialEq, Eq)]
pub enum ModulationType {
    None,
    Phase,
    Ring,
    HardSync,
    Window,
    SlewRate,
    SlewStep,
}

// The control registers.
#[derive(Clone, Copy)]
pub struct Registers {
    pub frequency: u16,
    pub waveform_type: WaveformType,
    pub volume: u8,
    pub panpot: u8,
    pub modulation_type: ModulationType,
    pub modulation_target: u8,
    pub modulation_targeting_mode: u8,
    pub modulation_param_1: u16,
    pub modulation_param_2: u16,
}

// The PCM registers, with sample control and whether the voice is active.
#[derive(Clone, Copy)]
pub struct PcmRegisters {
    pub start_addr: u32,
    pub end_addr: u32,
    pub loop_addr: u32,
    pub control: u8,
    pub sample_control: u8,
    pub active: bool,
}

// A voice's queue: its entries are the voice's own 2,048 of the queue buffer.
// Kept as it is: memory is fixed and the entries are the caller's buffer, so head and count stand apart from them.
#[derive(Clone, Copy, Default)]
pub struct Fifo {
    pub head: usize,
    pub count: usize,
    pub held: i16,
    pub hold: u32,
    pub sub: u8,
    pub latch: u8,
}
