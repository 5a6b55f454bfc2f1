// One voice's tick, and frames of stems.
ghost use Rattle.std.specs.Prelude.{◌≡◌, length};
ghost use Rattle.chip_sound.specs.Sound.{generate_sample_called, clock_called, clock_stems};

use crate::both::{pair, run_core, second_sounds};
use crate::ended::{ended_since, flags};
use crate::mixing::{CHUNK, room};
use cores::CHIP_STEMS;
use s3w2::{Called, Chip, Returned};
use sizes::{LAST_CHANNEL, QUEUE_BUFFER, STEMS};

// A tick of one voice, and whether it turned the voice off; a channel above 7, and a core that the version lacks, give 0
// and no.
pub fn generate_sample(chip: Chip, ram: &[u8], queues: &mut [i16], core: usize, ch: usize) -> Called
    ensures called { result ≡ generate_sample_called chip ram.now queues.old core ch }
    ensures queues { queues.new ≡ queues.old }
{
    if let Err(refusal) = chip.refusal_of_sound(ram.len(), queues.len()) {
        return chip.answers(Err(refusal));
    }
    let version = chip.version;
    if version.core_count() <= core {
        return chip.answers(Ok(Returned::Sample {
            value: 0,
            ended: false,
        }));
    }
    if LAST_CHANNEL < ch {
        return chip.answers(Ok(Returned::Sample {
            value: 0,
            ended: false,
        }));
    }
    let voices = chip.cores[core];
    let from = core * QUEUE_BUFFER;
    let to = from + QUEUE_BUFFER;
    let turned = frames::tick(voices, version, ram, &mut queues[from..to], ch);
    let next = turned.core;
    let c = voices.channels[ch];
    let was = c.pcm;
    let d = next.channels[ch];
    let is = d.pcm;
    let ended = endings::turned_off(was.active, is.active);
    let mut after = chip;
    after.cores[core] = next;
    after.answers(Ok(Returned::Sample {
        value: turned.sample,
        ended,
    }))
}

// Stems: 32 a frame, core 0's and then core 1's, channel 0 left, channel 0 right, channel 1 left and so on. The answer is the
// voices that the frames turned off.
// Kept as it is: the last part of the frames is shorter, so a range by steps would count each part's length all the same.
pub fn clock(chip: Chip, ram: &[u8], queues: &mut [i16], frames: usize, stems: &mut [i16]) -> Called
    ensures called { result ≡ clock_called chip ram.now queues.old frames (length stems.old) }
    ensures queues { queues.new ≡ queues.old }
    ensures stems { stems.new ≡ clock_stems chip ram.now queues.old frames stems.old }
{
    if let Err(refusal) = chip.refusal_of_clock(ram.len(), queues.len(), frames, stems.len()) {
        return chip.answers(Err(refusal));
    }
    let was = flags(chip);
    let version = chip.version;
    let sounds = second_sounds(chip);
    let mut one = chip.core_at(0);
    let mut two = chip.core_at(1);
    let mut first = [0i16; STEMS * CHUNK];
    let mut second = [0i16; STEMS * CHUNK];
    let mut done = 0;
    while done < frames {
        let count = (frames - done).min(CHUNK);
        let end = STEMS * count;
        let more = room(sounds, end);
        one = run_core(one, version, ram, &mut *queues, 0, &mut first[..end]);
        two = run_core(two, version, ram, &mut *queues, 1, &mut second[..more]);
        let from = CHIP_STEMS * done;
        let to = from + CHIP_STEMS * count;
        pair(&first[..end], &second[..end], &mut stems[from..to]);
        done += count;
    }
    let after = chip.with_cores(one, two);
    after.answers(Ok(ended_since(after, was)))
}
