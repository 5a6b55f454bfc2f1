// A state written to standard output.
use crate::Program;
use crate::moving::{write_refusal, written};
use log_player::Player;
use log_state::LINES;
use session::LineRefusal;

// Writes a line that was put into the text, or why there is none, and answers whether the line was written.
fn write_line(program: Program, answer: Result<usize, LineRefusal>, text: &mut [u8]) -> bool {
    let Ok(length) = answer else {
        write_refusal(program, answer, text);
        return false;
    };
    written(program, text, length)
}

// Writes line k of the state, and answers whether it could.
fn save_line(
    program: Program,
    player: Player,
    k: usize,
    text: &mut [u8],
    ram: &[u8],
    queues: &[i16],
) -> bool {
    let answer = log_state::put_line(player, ram, queues, k, &mut *text);
    write_line(program, answer, text)
}

pub(crate) fn save(program: Program, player: Player, text: &mut [u8], ram: &[u8], queues: &[i16]) {
    for k in 0..LINES {
        if !save_line(program, player, k, &mut *text, ram, queues) {
            return;
        }
    }
    written(program, ram, ram.len());
}
