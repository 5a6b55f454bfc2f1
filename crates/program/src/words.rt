// The words that a program was started with. Word 0 is its own name.
ghost use Rattle.std.specs.Prelude.{◌≡◌, ◌<◌, false, length};

use std::env::{Env, FillError};

// The most bytes of a word that is looked for.
const LONGEST: usize = 16;

// How many there are.
pub fn word_count(rt: &HostRuntime) -> usize {
    let mut word = [0u8; LONGEST];
    for count in 0..usize::MAX {
        if let Err(FillError::NotPresent) = rt.arg(count, &mut word) {
            return count;
        }
    }
    usize::MAX
}

// Whether word k is there and is a name. None of more than 16 bytes is looked for.
pub fn is_word(rt: &HostRuntime, k: usize, name: &[u8]) -> bool
    ensures { LONGEST < length name.now → result ≡ false }
{
    let mut word = [0u8; LONGEST];
    let Ok(count) = rt.arg(k, &mut word) else {
        return false;
    };
    &word[..count] == name
}
