// A voice line read, as a stored one or as any.
ghost use Rattle.std.specs.Prelude.{◌≡◌, ◌<◌, length};
ghost use Rattle.cores.specs.Sizes.{chip_voices, chip_queues};
ghost use Rattle.session_lines.specs.Lines.{read_as};
ghost use Rattle.session.specs.Voices.{loaded_chip, loaded_queues, voice_read_called, voice_read_queues};
ghost use Rattle.session.specs.Voices.{read_voice_called, read_voice_queues, read_stored_voice_called, read_stored_voice_queues};

use crate::answers::answers;
use crate::{LineCalled, LineRefusal};
use s3w2::Chip;
use sizes::{FIFO_CAPACITY, NUM_CHANNELS};

// The line is read into a voice, which is lent its own wavetable and queue entries; its fragments stay, its cache is empty.
fn load(mut chip: Chip, queues: &mut [i16], stored: bool, voice: usize, text: &[u8]) -> Chip
    requires { (voice < chip_voices) × (length queues.old ≡ chip_queues) }
    ensures result { result ≡ loaded_chip chip voice (read_as stored chip.version text.now) }
    ensures queues { queues.new ≡ loaded_queues queues.old voice (read_as stored chip.version text.now) }
{
    let version = chip.version;
    let k = voice / NUM_CHANNELS;
    let ch = voice % NUM_CHANNELS;
    let mut core = chip.cores[k];
    let channels = core.channels;
    let mut tables = core.wavetables;
    let at = ch * 256;
    let to = at + 256;
    let first = voice * FIFO_CAPACITY;
    let end = first + FIFO_CAPACITY;
    let c = channels[ch];
    let d = session_lines::read_voice(
        c,
        stored,
        version,
        text,
        &mut tables[at..to],
        &mut queues[first..end],
    );
    core.wavetables = tables;
    core.channels[ch] = d;
    chip.cores[k] = core;
    chip
}

fn read(chip: Chip, queues: &mut [i16], stored: bool, text: &[u8]) -> LineCalled
    ensures called { result ≡ voice_read_called stored chip queues.old text.now }
    ensures queues { queues.new ≡ voice_read_queues stored chip queues.old text.now }
{
    if let Err(refusal) = chip.refusal_with_queues(queues.len()) {
        return answers(chip, Err(LineRefusal::from(refusal)));
    }
    let version = chip.version;
    let line = session_lines::check_voice(stored, version, text);
    match line {
        Ok(voice) => answers(load(chip, queues, stored, voice, text), Ok(())),
        Err(error) => answers(chip, Err(LineRefusal::from(error))),
    }
}

// Sets the voice that the line's first field names. A chip without a FIFO takes no line with anything in its queue.
pub fn read_voice(chip: Chip, queues: &mut [i16], text: &[u8]) -> LineCalled
    ensures called { result ≡ read_voice_called chip queues.old text.now }
    ensures queues { queues.new ≡ read_voice_queues chip queues.old text.now }
{
    read(chip, queues, false, text)
}

// The same of a line that was stored before: a chip without a FIFO drops what it has in its queue.
pub fn read_stored_voice(chip: Chip, queues: &mut [i16], text: &[u8]) -> LineCalled
    ensures called { result ≡ read_stored_voice_called chip queues.old text.now }
    ensures queues { queues.new ≡ read_stored_voice_queues chip queues.old text.now }
{
    read(chip, queues, true, text)
}
