// One line of a state, written or read: line 0 is the head, line k that of voice k - 1.
ghost use Rattle.std.specs.Prelude.{◌≡◌, length};
ghost use Rattle.decimal.specs.Read.{natural_at};
ghost use Rattle.log_state.specs.Lines.{put_line_answer, put_line_text, taken_by, is_natural, own_line, take_line, take_line_queues};

use crate::Taken;
use log_player::Player;
use session::{LineCalled, LineRefusal};

// Writes line k at out's beginning, if there is room for it.
// Kept as it is: any k may be given, here, to take_line and to find, and an enum of the head and the sixteen voices would ask more of callers.
pub fn put_line(
    player: Player,
    ram: &[u8],
    queues: &[i16],
    k: usize,
    out: &mut [u8],
) -> Result<usize, LineRefusal>
    ensures answer { result ≡ put_line_answer player.chip (length ram.now) queues.now k out.old }
    ensures out { out.new ≡ put_line_text player.chip (length ram.now) queues.now k out.old }
{
    let chip = player.chip;
    if k == 0 {
        return session::write_head(chip, ram, out);
    }
    session::write_voice(chip, queues, k - 1, out)
}

// The peaks stay.
fn taken(player: Player, called: LineCalled) -> Taken
    ensures { result ≡ taken_by player called }
{
    let chip = called.chip;
    let answer = called.answer;
    Taken {
        player: Player { chip, ..player },
        answer,
    }
}

fn begins_with(text: &[u8], number: usize) -> bool
    ensures { result ≡ is_natural number (natural_at text.now 0) }
{
    decimal::take_natural(text, 0).is_some_and(|(value, _)| value == (number as u64))
}

// A voice line that begins with the voice's number; an empty one in the place of any other.
fn own_line(text: &[u8], ch: usize) -> &[u8]
    ensures { result.now ≡ own_line ch text.now }
{
    if begins_with(text, ch) {
        return text;
    }
    num::part(text, 0, 0)
}

// Reads line k, as a stored line or as any. A voice line that is not that of voice k - 1 is malformed at its first field.
pub fn take_line(
    stored: bool,
    player: Player,
    ram: &[u8],
    queues: &mut [i16],
    k: usize,
    text: &[u8],
) -> Taken
    ensures result { result ≡ take_line stored player (length ram.now) queues.old k text.now }
    ensures queues { queues.new ≡ take_line_queues stored player queues.old k text.now }
{
    let chip = player.chip;
    if k == 0 {
        return taken(player, session::read_head(chip, ram, text));
    }
    let line = own_line(text, k - 1);
    if stored {
        return taken(player, session::read_stored_voice(chip, queues, line));
    }
    taken(player, session::read_voice(chip, queues, line))
}
