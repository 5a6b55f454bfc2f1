// The lines of a state in an input, and those that a player printed before it.
ghost use Rattle.std.specs.Prelude.{◌≡◌, drop};
ghost use Rattle.log_state.specs.Finding.{sound_line, found_at};

use crate::Found;

// Whether a player prints lines that begin so: `F`, `R` and `P`. They may stand before line 0 alone.
fn is_sound(byte: u8, k: usize) -> bool
    ensures { result ≡ sound_line byte k }
{
    if k != 0 {
        return false;
    }
    // Kept as it is: tried by `matches!`, whose last arm tells the proof nothing of the byte.
    match byte {
        b'F' => true,
        b'P' => true,
        b'R' => true,
        _ => false,
    }
}

// What stands at `from`, where line k of a state is looked for. Of a line that a player printed only the first byte counts.
pub fn find(input: &[u8], from: usize, k: usize) -> Found
    ensures { result ≡ found_at (drop from input.now) from k }
{
    let sound = is_sound(num::byte_at(input, from), k);
    let Some(stop) = log_player::line_end(input, from) else {
        if sound {
            return Found::Open(from + 1);
        }
        return Found::Open(from.max(input.len()));
    };
    if sound {
        return Found::Sound(stop + 1);
    }
    Found::Line(stop + 1)
}
