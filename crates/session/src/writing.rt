// A voice line written.
ghost use Rattle.std.specs.Prelude.{◌≡◌};
ghost use Rattle.session.specs.Voices.{write_voice_answer, write_voice_text};

use crate::LineRefusal;
use cores::CHIP_VOICES;
use s3w2::Chip;
use sizes::{FIFO_CAPACITY, NUM_CHANNELS};

// No voice above 15 has a line.
pub fn write_voice(
    chip: Chip,
    queues: &[i16],
    voice: usize,
    out: &mut [u8],
) -> Result<usize, LineRefusal>
    ensures answer { result ≡ write_voice_answer chip queues.now voice out.old }
    ensures out { out.new ≡ write_voice_text chip queues.now voice out.old }
{
    chip.refusal_with_queues(queues.len())?;
    if CHIP_VOICES <= voice {
        return Ok(0);
    }
    let k = voice / NUM_CHANNELS;
    let ch = voice % NUM_CHANNELS;
    let core = chip.cores[k];
    let channels = core.channels;
    let tables = core.wavetables;
    let at = ch * 256;
    let first = voice * FIFO_CAPACITY;
    let end = first + FIFO_CAPACITY;
    let c = channels[ch];
    let wavetable = num::part(&tables, at, at + 256);
    let written = session_lines::write_voice(c, voice, wavetable, &queues[first..end], out)?;
    Ok(written)
}
