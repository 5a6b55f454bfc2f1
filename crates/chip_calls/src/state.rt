// Registers, channels, RAM and versions.
ghost use Rattle.std.specs.Prelude.{[]};
ghost use Rattle.s3w2.specs.Answers.{answered};
ghost use Rattle.call_lists.specs.Calls as list;
ghost use Rattle.chip_calls.specs.Ties.{machine};
ghost use Rattle.chip_calls.specs.Code.{AsCode};

use s3w2::{Answer, Called, Chip};
use version::SguVersion;

// As `Chip::reset`.
pub fn reset(chip: Chip, ram: &mut [u8], queues: &[i16]) -> Called
    ensures code { AsCode (machine chip ram.old queues.now) list.reset result ram.new queues.now [] }
{
    chip.reset(ram)
}

// As `Chip::set_version`.
pub fn set_version(chip: Chip, ram: &[u8], queues: &[i16], version: SguVersion) -> Called
    ensures code { AsCode (machine chip ram.now queues.now) (list.set_version version) result ram.now
        queues.now [] }
{
    chip.set_version(version)
}

// As `Chip::reset_channel`.
pub fn reset_channel(chip: Chip, ram: &[u8], queues: &[i16], core: usize, ch: usize) -> Called
    ensures code { AsCode (machine chip ram.now queues.now) (list.reset_channel core ch) result ram.now
        queues.now [] }
{
    chip.reset_channel(core, ch)
}

// As `Chip::write_register`.
pub fn write_register(
    chip: Chip,
    ram: &[u8],
    queues: &mut [i16],
    core: usize,
    address: u32,
    value: u8,
) -> Called
    ensures code { AsCode (machine chip ram.now queues.old) (list.write_register core address value) result ram.now
        queues.new [] }
{
    chip.write_register(queues, core, address, value)
}

// As `Chip::read_register`.
pub fn read_register(chip: Chip, ram: &[u8], queues: &[i16], core: usize, address: u32) -> Called
    ensures code { AsCode (machine chip ram.now queues.now) (list.read_register core address) result ram.now
        queues.now [] }
{
    chip.read_register(core, address)
}

// As `Chip::peek_register`.
pub fn peek_register(chip: Chip, ram: &[u8], queues: &[i16], core: usize, address: u32) -> Answer
    ensures code { AsCode (machine chip ram.now queues.now) (list.peek_register core address) (answered chip result)
        ram.now queues.now [] }
{
    chip.peek_register(core, address)
}

// As `Chip::write_channel_control`.
pub fn write_channel_control(
    chip: Chip,
    ram: &[u8],
    queues: &mut [i16],
    core: usize,
    ch: usize,
    offset: u8,
    value: u8,
) -> Called
    ensures code { AsCode (machine chip ram.now queues.old) (list.write_channel_control core ch offset value) result
        ram.now queues.new [] }
{
    chip.write_channel_control(queues, core, ch, offset, value)
}

// As `Chip::read_channel_control`.
pub fn read_channel_control(
    chip: Chip,
    ram: &[u8],
    queues: &[i16],
    core: usize,
    ch: usize,
    offset: u8,
) -> Called
    ensures code { AsCode (machine chip ram.now queues.now) (list.read_channel_control core ch offset) result ram.now
        queues.now [] }
{
    chip.read_channel_control(core, ch, offset)
}

// As `Chip::write_channel_pcm_reg`.
pub fn write_channel_pcm_reg(
    chip: Chip,
    ram: &[u8],
    queues: &[i16],
    core: usize,
    ch: usize,
    offset: u8,
    value: u8,
) -> Called
    ensures code { AsCode (machine chip ram.now queues.now) (list.write_channel_pcm_reg core ch offset value) result
        ram.now queues.now [] }
{
    chip.write_channel_pcm_reg(core, ch, offset, value)
}

// As `Chip::read_channel_pcm_reg`.
pub fn read_channel_pcm_reg(
    chip: Chip,
    ram: &[u8],
    queues: &[i16],
    core: usize,
    ch: usize,
    offset: u8,
) -> Answer
    ensures code { AsCode (machine chip ram.now queues.now) (list.read_channel_pcm_reg core ch offset) (answered chip result)
        ram.now queues.now [] }
{
    chip.read_channel_pcm_reg(core, ch, offset)
}

// As `Chip::write_channel_wavetable`.
pub fn write_channel_wavetable(
    chip: Chip,
    ram: &[u8],
    queues: &[i16],
    core: usize,
    ch: usize,
    offset: u8,
    value: u8,
) -> Called
    ensures code { AsCode (machine chip ram.now queues.now) (list.write_channel_wavetable core ch offset value) result
        ram.now queues.now [] }
{
    chip.write_channel_wavetable(core, ch, offset, value)
}

// As `Chip::read_channel_wavetable`.
pub fn read_channel_wavetable(
    chip: Chip,
    ram: &[u8],
    queues: &[i16],
    core: usize,
    ch: usize,
    offset: u8,
) -> Answer
    ensures code { AsCode (machine chip ram.now queues.now) (list.read_channel_wavetable core ch offset) (answered chip result)
        ram.now queues.now [] }
{
    chip.read_channel_wavetable(core, ch, offset)
}

// As `Chip::wavetable_length`.
pub fn wavetable_length(chip: Chip, ram: &[u8], queues: &[i16], core: usize, ch: usize) -> Answer
    ensures code { AsCode (machine chip ram.now queues.now) (list.wavetable_length core ch) (answered chip result)
        ram.now queues.now [] }
{
    chip.wavetable_length(core, ch)
}

// As `Chip::interpolates`.
pub fn interpolates(chip: Chip, ram: &[u8], queues: &[i16], core: usize, ch: usize) -> Answer
    ensures code { AsCode (machine chip ram.now queues.now) (list.interpolates core ch) (answered chip result)
        ram.now queues.now [] }
{
    chip.interpolates(core, ch)
}

// As `Chip::write_pcm_ram`.
pub fn write_pcm_ram(chip: Chip, ram: &mut [u8], queues: &[i16], address: u32, value: u8) -> Called
    ensures code { AsCode (machine chip ram.old queues.now) (list.write_pcm_ram address value) result ram.new
        queues.now [] }
{
    chip.write_pcm_ram(ram, address, value)
}

// As `Chip::read_pcm_ram`.
pub fn read_pcm_ram(chip: Chip, ram: &[u8], queues: &[i16], address: u32) -> Answer
    ensures code { AsCode (machine chip ram.now queues.now) (list.read_pcm_ram address) (answered chip result)
        ram.now queues.now [] }
{
    chip.read_pcm_ram(ram, address)
}
