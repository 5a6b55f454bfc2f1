// A session's lines.
ghost use Rattle.call_lists.specs.Calls as list;
ghost use Rattle.chip_calls.specs.Ties.{machine};
ghost use Rattle.chip_calls.specs.Code.{AsWritten, AsRead};

use s3w2::Chip;
use session::{LineCalled, LineRefusal};

// As `session::write_head`.
pub fn write_head(
    chip: Chip,
    ram: &[u8],
    queues: &[i16],
    out: &mut [u8],
) -> Result<usize, LineRefusal>
    ensures code { AsWritten (machine chip ram.now queues.now) (list.write_head out.old) result
        out.new }
{
    session::write_head(chip, ram, out)
}

// As `session::read_head`.
pub fn read_head(chip: Chip, ram: &[u8], queues: &[i16], text: &[u8]) -> LineCalled
    ensures code { AsRead (machine chip ram.now queues.now) (list.read_head text.now) result ram.now
        queues.now }
{
    session::read_head(chip, ram, text)
}

// As `session::write_voice`.
pub fn write_voice(
    chip: Chip,
    ram: &[u8],
    queues: &[i16],
    voice: usize,
    out: &mut [u8],
) -> Result<usize, LineRefusal>
    ensures code { AsWritten (machine chip ram.now queues.now) (list.write_voice voice out.old) result
        out.new }
{
    session::write_voice(chip, queues, voice, out)
}

// As `session::read_voice`.
pub fn read_voice(chip: Chip, ram: &[u8], queues: &mut [i16], text: &[u8]) -> LineCalled
    ensures code { AsRead (machine chip ram.now queues.old) (list.read_voice text.now) result
        ram.now queues.new }
{
    session::read_voice(chip, queues, text)
}

// As `session::read_stored_voice`.
pub fn read_stored_voice(chip: Chip, ram: &[u8], queues: &mut [i16], text: &[u8]) -> LineCalled
    ensures code { AsRead (machine chip ram.now queues.old) (list.read_stored_voice text.now) result
        ram.now queues.new }
{
    session::read_stored_voice(chip, queues, text)
}
