// Lines of an input played by the chip as one list of calls.
ghost use Rattle.std.specs.Prelude.{◌≡◌, ◌*◌, ◌/◌, ◌≤◌, length};
ghost use Rattle.sizes.specs.Sizes.{stems_per_frame};
ghost use Rattle.log_sound.specs.Sounding.{sounded_of, sounded_left, sounded_stems, sounded_others};

use crate::Sounded;
use crate::gathering::gather;
use s3w2::Chip;
use sizes::STEMS;

// Plays the lines from `from` on, at most 256 of them, and as many as the stems have room for the frames of. The stems of the frames
// stand in front, 16 a frame: core 0's, and core 1's in `others`, which is as long.
pub fn play(
    chip: Chip,
    input: &[u8],
    from: usize,
    ram: &mut [u8],
    queues: &mut [i16],
    stems: &mut [i16],
    others: &mut [i16],
) -> Sounded
    ensures result { result
        ≡ sounded_of chip input.now from ram.old queues.old stems.old others.old }
    ensures ram { ram.new
        ≡ (sounded_left chip input.now from ram.old queues.old stems.old others.old).ram }
    ensures queues { queues.new
        ≡ (sounded_left chip input.now from ram.old queues.old stems.old others.old).queues }
    ensures stems { stems.new
        ≡ sounded_stems chip input.now from ram.old queues.old stems.old others.old }
    ensures others { others.new
        ≡ sounded_others chip input.now from ram.old queues.old stems.old others.old }
    ensures bound { (result.count ≤ 256) × (stems_per_frame * result.frames ≤ length stems.old) }
{
    // Kept as it is: chip_lists::play is lent three lists, so one array of calls would have to be copied into three.
    let mut kinds = [0u8; 256];
    let mut addresses = [0u32; 256];
    let mut values = [0u8; 256];
    let lines = gather(
        input,
        from,
        stems.len().min(others.len()) / STEMS,
        &mut kinds,
        &mut addresses,
        &mut values,
    );
    let n = lines.count;
    let end = STEMS * lines.frames;
    let called = chip_lists::play(
        chip,
        &kinds[..n],
        &addresses[..n],
        &mut values[..n],
        ram,
        queues,
        &mut stems[..end],
        &mut others[..end],
    );
    let next = called.chip;
    let answer = called.answer;
    Sounded {
        chip: next,
        answer,
        count: n,
        frames: lines.frames,
        from: lines.from,
    }
}
