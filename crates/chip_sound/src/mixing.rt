// Frames of both cores added to two sides, 256 at a time; the shorter of the two is served.
ghost use Rattle.std.specs.Prelude.{◌≡◌, true, cond, length, min};
ghost use Rattle.cores.specs.Sizes.{chip_queues};
ghost use Rattle.sides.specs.Sides.{saturating, wrapping};
ghost use Rattle.s3w2.specs.Refusals.{accepts_chip};
ghost use Rattle.chip_sound.specs.Sound.{framed};
ghost use Rattle.chip_sound.specs.Mixing.{cleared_to, mixed_in, mixed_called, mixed_i32_called, mixed_left, mixed_right, clock_mixed_called, clock_mixed_left, clock_mixed_right};

use crate::both::{run_core, second_sounds};
use crate::ended::{ended_since, flags};
use s3w2::{Called, Chip, Returned};
use sides::SideNumber;
use sizes::STEMS;

// Frames at a time.
pub(crate) const CHUNK: usize = 256;

// The room of core 1's stems: none where it does not sound.
pub(crate) fn room(sounds: bool, room: usize) -> usize
    ensures { result ≡ cond sounds room 0 }
{
    if sounds {
        return room;
    }
    0
}

fn clear(side: &mut [i16], n: usize)
    ensures { side.new ≡ cleared_to n side.old }
{
    let end = n.min(side.len());
    stream::clear(&mut side[..end]);
}

// The sides are overwritten.
pub fn clock_mixed(
    chip: Chip,
    ram: &[u8],
    queues: &mut [i16],
    left: &mut [i16],
    right: &mut [i16],
) -> Called
    ensures called { result ≡ clock_mixed_called chip ram.now queues.old left.old right.old }
    ensures queues { queues.new ≡ queues.old }
    ensures left { left.new
        ≡ clock_mixed_left chip ram.now queues.old left.old right.old }
    ensures right { right.new
        ≡ clock_mixed_right chip ram.now queues.old left.old right.old }
{
    if let Err(refusal) = chip.refusal_of_sound(ram.len(), queues.len()) {
        return chip.answers(Err(refusal));
    }
    let n = left.len().min(right.len());
    clear(&mut *left, n);
    clear(&mut *right, n);
    clock_mixed_into(chip, ram, queues, left, right)
}

// Frames of both cores added to the sides, and the chip after them.
// Kept as it is: the last part of the frames is shorter, so a range by steps would count each part's length all the same.
fn mix<T: SideNumber>(
    chip: Chip,
    ram: &[u8],
    queues: &mut [i16],
    left: &mut [T],
    right: &mut [T],
) -> Chip
    requires { (accepts_chip chip (length ram.now) ≡ true) × (length queues.old ≡ chip_queues) }
    ensures result { result ≡ framed chip ram.now queues.old (min (length left.old) (length right.old)) }
    ensures queues { queues.new ≡ queues.old }
    ensures left { left.new
        ≡ mixed_in T.silent T.plus chip ram.now queues.old (min (length left.old) (length right.old)) 0 left.old }
    ensures right { right.new
        ≡ mixed_in T.silent T.plus chip ram.now queues.old (min (length left.old) (length right.old)) 1 right.old }
{
    let version = chip.version;
    let sounds = second_sounds(chip);
    let n = left.len().min(right.len());
    let mut first = chip.core_at(0);
    let mut second = chip.core_at(1);
    let mut stems = [0i16; STEMS * CHUNK];
    let mut others = [0i16; STEMS * CHUNK];
    let mut at = 0;
    while at < n {
        let count = (n - at).min(CHUNK);
        let end = STEMS * count;
        let more = room(sounds, end);
        first = run_core(first, version, ram, &mut *queues, 0, &mut stems[..end]);
        second = run_core(second, version, ram, &mut *queues, 1, &mut others[..more]);
        sides::add(&stems[..end], &others[..more], &mut *left, &mut *right, at);
        at += count;
    }
    chip.with_cores(first, second)
}

// The sums of both cores are clamped and added to the sides, and saturate.
pub fn clock_mixed_into(
    chip: Chip,
    ram: &[u8],
    queues: &mut [i16],
    left: &mut [i16],
    right: &mut [i16],
) -> Called
    ensures called { result ≡ mixed_called chip ram.now queues.old left.old right.old }
    ensures queues { queues.new ≡ queues.old }
    ensures left { left.new
        ≡ mixed_left saturating chip ram.now queues.old left.old right.old }
    ensures right { right.new
        ≡ mixed_right saturating chip ram.now queues.old left.old right.old }
{
    if let Err(refusal) = chip.refusal_of_sound(ram.len(), queues.len()) {
        return chip.answers(Err(refusal));
    }
    let after = mix(chip, ram, queues, left, right);
    after.answers(Ok(Returned::Done))
}

// The sums are added to sides of 32 bits, and wrap. The answer is the voices that the frames turned off.
pub fn clock_mixed_into_i32(
    chip: Chip,
    ram: &[u8],
    queues: &mut [i16],
    left: &mut [i32],
    right: &mut [i32],
) -> Called
    ensures called { result ≡ mixed_i32_called chip ram.now queues.old left.old right.old }
    ensures queues { queues.new ≡ queues.old }
    ensures left { left.new
        ≡ mixed_left wrapping chip ram.now queues.old left.old right.old }
    ensures right { right.new
        ≡ mixed_right wrapping chip ram.now queues.old left.old right.old }
{
    if let Err(refusal) = chip.refusal_of_sound(ram.len(), queues.len()) {
        return chip.answers(Err(refusal));
    }
    let was = flags(chip);
    let after = mix(chip, ram, queues, left, right);
    after.answers(Ok(ended_since(after, was)))
}
