// What the calls answer.
ghost use Rattle.std.specs.Prelude.{◌≡◌, get_or, slice_get};
ghost use Rattle.session.specs.declared.LineRefusal.TheVariants as refusals;
ghost use Rattle.session.specs.Answers.{refusal_numbers, numbers_of, field_refused, voice_refused, line_answered};

use crate::{LineCalled, LineRefusal};
use line_fields::{FieldError, RoomError};
use s3w2::{Chip, Refusal};
use session_lines::VoiceError;

pub(crate) fn answers(chip: Chip, answer: Result<(), LineRefusal>) -> LineCalled
    ensures { result ≡ line_answered chip answer }
{
    LineCalled { chip, answer }
}

// The number of a refusal (docs/SPECIFICATION.md, section 12); 0 where it is none.
pub fn number<A: Copy>(answer: Result<A, LineRefusal>) -> u8
    ensures { result ≡ get_or (numbers_of answer) 0 0 }
{
    match answer {
        Ok(_) => 0,
        Err(refusal) => refusal.number(),
    }
}

// The field at fault; 0 where there is none.
pub fn field<A: Copy>(answer: Result<A, LineRefusal>) -> usize
    ensures { result ≡ get_or (numbers_of answer) 1 0 }
{
    match answer {
        Err(LineRefusal::Malformed(field)) => field,
        _ => 0,
    }
}

impl From<RoomError> for LineRefusal {
    ghost from_gives = { λ error refusal. refusal ≡ refusals.TextBuffer };

    fn from(error: RoomError) -> LineRefusal {
        match error {
            RoomError::TextBuffer => LineRefusal::TextBuffer,
        }
    }
}

impl From<FieldError> for LineRefusal {
    ghost from_gives = { λ error refusal. refusal ≡ field_refused error };

    fn from(error: FieldError) -> LineRefusal {
        match error {
            FieldError::Malformed(field) => LineRefusal::Malformed(field),
        }
    }
}

impl From<VoiceError> for LineRefusal {
    ghost from_gives = { λ error refusal. refusal ≡ voice_refused error };

    fn from(error: VoiceError) -> LineRefusal {
        match error {
            VoiceError::Malformed(field) => LineRefusal::Malformed(field),
            VoiceError::Queued => LineRefusal::Queued,
        }
    }
}

impl From<Refusal> for LineRefusal {
    ghost from_gives = { λ why e. e ≡ refusals.OfChip why };

    fn from(refusal: Refusal) -> LineRefusal {
        LineRefusal::OfChip(refusal)
    }
}

impl LineRefusal {
    // Its number (docs/SPECIFICATION.md, section 12).
    pub fn number(self) -> u8
        ensures { result ≡ get_or (refusal_numbers self) 0 0 }
    {
        match self {
            LineRefusal::OfChip(refusal) => refusal.number(),
            LineRefusal::TextBuffer => 15,
            LineRefusal::Malformed(_) => 16,
            LineRefusal::OtherLength => 22,
            LineRefusal::Queued => 23,
        }
    }

    // The field at fault.
    pub fn field(self) -> Option<usize>
        ensures { result ≡ slice_get (refusal_numbers self) 1 }
    {
        match self {
            LineRefusal::Malformed(field) => Some(field),
            _ => None,
        }
    }
}
