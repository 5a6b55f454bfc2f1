// The session's calls on a chip: a head or a voice line written or read. Refusals come in the order of
// docs/SPECIFICATION.md, section 12: RAM length, queue buffer, state, then the text; then what a well-formed line may not say here.
#![tactic(auto)]

mod answers;
mod heads;
mod reading;
mod writing;

pub use answers::{field, number};
pub use heads::{read_head, write_head};
pub use reading::{read_stored_voice, read_voice};
use s3w2::{Chip, Refusal};
pub use writing::write_voice;

// Why a call is turned away. A field is counted from 1.
#[derive(Clone, Copy, Debug, PartialEq, Eq)]
pub enum LineRefusal {
    // As another call of the chip is.
    OfChip(Refusal),
    TextBuffer,
    Malformed(usize),
    OtherLength,
    Queued,
}

#[derive(Clone, Copy)]
pub struct LineCalled {
    pub chip: Chip,
    pub answer: Result<(), LineRefusal>,
}
