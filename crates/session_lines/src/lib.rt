// The lines of a session text: a head or a voice line, written and read.
#![tactic(auto)]

ghost use Rattle.std.specs.Prelude.{◌≡◌};
ghost use Rattle.session_lines.specs.Lines.{refused_voice};

mod head;
mod reading;
mod states;
mod writing;

pub use head::{read_head, write_head};
use line_fields::FieldError;
pub use reading::{check_voice, read_voice};
use version::SguVersion;
pub use writing::write_voice;

// What refuses a voice line: a field, by its number from 1, that is missing, malformed or out of range; or something in the
// queue of a voice on a chip without a FIFO.
#[derive(Clone, Copy, PartialEq, Eq, Debug)]
pub enum VoiceError {
    Malformed(usize),
    Queued,
}

impl From<FieldError> for VoiceError {
    ghost from_gives = { λ field e. e ≡ refused_voice field };

    fn from(error: FieldError) -> VoiceError {
        match error {
            FieldError::Malformed(field) => VoiceError::Malformed(field),
        }
    }
}

// What a head is: a version, or a version and the length of the RAM.
#[derive(Clone, Copy)]
pub enum SessionHead {
    Version(SguVersion),
    Sized { version: SguVersion, size: usize },
}
