// A session's head: written, and read as another version is set. Of the RAM that is lent only the length counts.
ghost use Rattle.std.specs.Prelude.{◌≡◌, length};
ghost use Rattle.session.specs.Heads.{write_head_answer, write_head_text, head_answered, read_head_called};

use crate::answers::answers;
use crate::{LineCalled, LineRefusal};
use s3w2::Chip;
use session_lines::SessionHead;
use version::SguVersion;

// Writes the head line.
pub fn write_head(chip: Chip, ram: &[u8], out: &mut [u8]) -> Result<usize, LineRefusal>
    ensures answer { result ≡ write_head_answer chip (length ram.now) out.old }
    ensures out { out.new ≡ write_head_text chip (length ram.now) out.old }
{
    chip.refusal_with_ram(ram.len())?;
    let version = chip.version;
    Ok(session_lines::write_head(version, ram.len(), out)?)
}

// The version that a head sets. A head that tells the length of another RAM is turned away.
fn version_of(chip: Chip, ram: &[u8], text: &[u8]) -> Result<SguVersion, LineRefusal>
    ensures { head_answered chip result ≡ read_head_called chip (length ram.now) text.now }
{
    chip.refusal_with_ram(ram.len())?;
    match session_lines::read_head(text)? {
        SessionHead::Version(version) => Ok(version),
        SessionHead::Sized { version, size } => {
            if size != ram.len() {
                return Err(LineRefusal::OtherLength);
            }
            Ok(version)
        }
    }
}

// What `set_version` does.
pub fn read_head(chip: Chip, ram: &[u8], text: &[u8]) -> LineCalled
    ensures { result ≡ read_head_called chip (length ram.now) text.now }
{
    match version_of(chip, ram, text) {
        Ok(version) => answers(chip.set_version(version).chip, Ok(())),
        Err(refusal) => answers(chip, Err(refusal)),
    }
}
