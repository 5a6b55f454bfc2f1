// The frequency of a note as a function of C's, for programs in C and Rust to link.
#![tactic(auto)]

ghost use Rattle.notes.specs.Pitches.{sum_at, NearestPitch};

// The frequency of a note, semitones up or down: 440 at note 69, twice that 12 semitones above.
#[unsafe(no_mangle)]
pub extern "C" fn frequency(note: u8, semitones: i8) -> u16
    ensures { NearestPitch (sum_at note semitones) result }
{
    notes::frequency(note, semitones)
}
