// The lines of an input, taken as calls.
ghost use Rattle.std.specs.Prelude.{◌≡◌, ◌≤◌, replicate};
ghost use Rattle.log_sound.specs.Gathering.{list_from, gathered_as, gathered_told};

use crate::Gathered;
use frames::clocked_by;
use log_player::{line_end, listed_call};

impl Gathered {
    fn of(count: usize, frames: usize, from: usize) -> Gathered
        ensures { result ≡ gathered_as count frames from }
    {
        Gathered {
            count,
            frames,
            from,
        }
    }
}

// Takes the lines from `from` on as calls, one after the other: at most 256, and no more than clock `room` frames; a line that is not
// whole, or is bad, is not taken, nor what stands behind it.
pub(crate) fn gather(
    input: &[u8],
    from: usize,
    room: usize,
    kinds: &mut [u8; 256],
    addresses: &mut [u32; 256],
    values: &mut [u8; 256],
) -> Gathered
    ensures result { result
        ≡ gathered_told (list_from input.now room from kinds.old addresses.old values.old) }
    ensures kinds { kinds.new
        ≡ (list_from input.now room from kinds.old addresses.old values.old).kinds }
    ensures addresses { addresses.new
        ≡ (list_from input.now room from kinds.old addresses.old values.old).addresses }
    ensures values { values.new
        ≡ (list_from input.now room from kinds.old addresses.old values.old).values }
    ensures bound { (result.count ≤ 256) × (result.frames ≤ room) }
{
    let mut frames = 0;
    let mut place = from;
    // Kept as it is: the count is also what the loop's exits answer, and a zip of three `iter_mut` with `enumerate` would be longer.
    for count in 0..256 {
        let Some(stop) = line_end(input, place) else {
            return Gathered::of(count, frames, place);
        };
        let Ok(call) = listed_call(log_lines::parse(&input[place..stop])) else {
            return Gathered::of(count, frames, place);
        };
        let more = clocked_by(call.kind, call.address);
        if room - frames < more {
            return Gathered::of(count, frames, place);
        }
        kinds[count] = call.kind;
        addresses[count] = call.address;
        values[count] = call.value;
        frames += more;
        place = stop + 1;
    }
    Gathered::of(256, frames, place)
}

// The same without the calls: how many lines they are, how many frames they clock, and the place behind them.
pub fn pass(input: &[u8], from: usize, room: usize) -> Gathered
    ensures result { result ≡ gathered_told (list_from input.now room from (replicate 256 0) (replicate 256 0) (replicate 256 0)) }
    ensures bound { (result.count ≤ 256) × (result.frames ≤ room) }
{
    let mut kinds = [0u8; 256];
    let mut addresses = [0u32; 256];
    let mut values = [0u8; 256];
    gather(input, from, room, &mut kinds, &mut addresses, &mut values)
}
