// Ticks and frames.
ghost use Rattle.std.specs.Prelude.{[], ◌∷◌};
ghost use Rattle.call_lists.specs.Calls as list;
ghost use Rattle.chip_calls.specs.Ties.{machine};
ghost use Rattle.chip_calls.specs.Code.{AsCode};

use s3w2::{Called, Chip};

// As `Chip::generate_sample`.
pub fn generate_sample(chip: Chip, ram: &[u8], queues: &mut [i16], core: usize, ch: usize) -> Called
    ensures code { AsCode (machine chip ram.now queues.old) (list.generate_sample core ch) result ram.now
        queues.new [] }
{
    chip_sound::generate_sample(chip, ram, queues, core, ch)
}

// As `Chip::clock`.
pub fn clock(chip: Chip, ram: &[u8], queues: &mut [i16], frames: usize, stems: &mut [i16]) -> Called
    ensures code { AsCode (machine chip ram.now queues.old) (list.clock frames stems.old) result
        ram.now queues.new (stems.new ∷ []) }
{
    chip_sound::clock(chip, ram, queues, frames, stems)
}

// As `Chip::clock_mixed`.
pub fn clock_mixed(
    chip: Chip,
    ram: &[u8],
    queues: &mut [i16],
    left: &mut [i16],
    right: &mut [i16],
) -> Called
    ensures code { AsCode (machine chip ram.now queues.old)
        (list.clock_mixed left.old right.old) result ram.now queues.new
        (left.new ∷ right.new ∷ []) }
{
    chip_sound::clock_mixed(chip, ram, queues, left, right)
}

// As `Chip::clock_mixed_into`.
pub fn clock_mixed_into(
    chip: Chip,
    ram: &[u8],
    queues: &mut [i16],
    left: &mut [i16],
    right: &mut [i16],
) -> Called
    ensures code { AsCode (machine chip ram.now queues.old)
        (list.clock_mixed_into left.old right.old) result ram.now queues.new
        (left.new ∷ right.new ∷ []) }
{
    chip_sound::clock_mixed_into(chip, ram, queues, left, right)
}

// As `Chip::clock_mixed_into_i32`.
pub fn clock_mixed_into_i32(
    chip: Chip,
    ram: &[u8],
    queues: &mut [i16],
    left: &mut [i32],
    right: &mut [i32],
) -> Called
    ensures code { AsCode (machine chip ram.now queues.old)
        (list.clock_mixed_into_i32 left.old right.old) result ram.now queues.new
        (left.new ∷ right.new ∷ []) }
{
    chip_sound::clock_mixed_into_i32(chip, ram, queues, left, right)
}
