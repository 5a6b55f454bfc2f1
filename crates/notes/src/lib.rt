// Notes by number: the frequency register's value of a note and semitones.
#![tactic(auto)]

ghost use Rattle.std.specs.Prelude.{◌≡◌};
ghost use Rattle.notes.specs.Pitches.{sum_at, NearestPitch};

mod table;

// How many sums of note and semitones there are: -128 to 382.
pub const SUMS: usize = 511;

// The place of the sum of note and semitones among all sums.
fn sum_at(note: u8, semitones: i8) -> usize
    ensures { result ≡ sum_at note semitones }
{
    ((note as i32) + 128 + (semitones as i32)) as usize
}

// The frequency of a note, semitones up or down: 440 at note 69, twice that 12 semitones above.
pub fn frequency(note: u8, semitones: i8) -> u16
    ensures { NearestPitch (sum_at note semitones) result }
{
    let Some(place) = sum_at(note, semitones).checked_sub(table::FIRST) else {
        return 0;
    };
    if table::KEPT <= place {
        return 65535;
    }
    let kept = table::frequencies();
    kept[place]
}
