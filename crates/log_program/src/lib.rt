// The programs over a log. Here bytes are only read, moved and written; what is printed is log_player's and log_state's.
#![tactic(auto)]

// Kept as it is: most functions take only two or three of `rt`, `program`, `input` and `text`, so a struct of all would hand on more than is used.
mod loading;
mod moving;
mod playing;
mod saving;

use cores::CHIP_QUEUES;

// A program over a log.
#[derive(Clone, Copy)]
pub(crate) enum Program {
    // Plays it, and prints the peaks in the end.
    Play,
    // Prints the state in which it leaves the player in place of the peaks.
    Save,
    // Reads a state before it, with voice lines as stored ones or as any, and prints the state in the end, or the peaks.
    Load { stored: bool, saves: bool },
}

impl Program {
    // Whether a state is printed in the end.
    pub(crate) fn saves(self) -> bool {
        matches!(self, Program::Save | Program::Load { saves: true, .. })
    }
}

// What the chip's calls are lent.
#[derive(Drop)]
pub(crate) struct Lent<'a> {
    pub ram: &'a mut [u8],
    pub queues: &'a mut [i16],
}

fn with_buffers(rt: &HostRuntime, program: Program, lent: &mut Lent<'_>) {
    let mut input = io::large_buffer();
    // No multiple of 4,096 bytes: the two players on its two sides are copied to each other, which is slow at such a distance.
    let mut text = [0u8; 133120];
    playing::play(rt, program, &mut input, &mut text, lent);
}

fn with_queues(rt: &HostRuntime, program: Program, queues: &mut [i16]) {
    let mut ram = io::large_buffer();
    let mut lent = Lent {
        ram: &mut ram,
        queues,
    };
    with_buffers(rt, program, &mut lent);
}

fn start(rt: &HostRuntime, program: Program) {
    let mut queues = [0i16; CHIP_QUEUES];
    with_queues(rt, program, &mut queues);
}

// Plays the log on standard input and prints what it gives on standard output.
pub fn play_log(rt: &HostRuntime) {
    start(rt, Program::Play);
}

// The same, and instead of the peaks the state in which the log leaves the player.
pub fn save_log(rt: &HostRuntime) {
    start(rt, Program::Save);
}

// Reads such a state, and goes on with the log behind it; at its end it prints the peaks, or the state again. As a stored one
// a state is read on a chip without a FIFO too that has something in its queues, and that is dropped.
pub fn load_log(rt: &HostRuntime, stored: bool, saves: bool) {
    start(rt, Program::Load { stored, saves });
}
