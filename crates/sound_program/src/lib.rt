// The programs over a log's sound. Here bytes are only read, moved and written: the samples are log_sound's, their bytes wav's, their
// levels those of crate levels. What a program has to say of a run stands on standard error: a line `frames,COUNT` for each second of
// sound, and a last one: `played,COUNT`, or `bad`, the line and the number of why.
#![tactic(auto)]

mod counting;
mod files;
mod measuring;
mod playing;
mod sounds;

use cores::{CHIP_QUEUES, CHIP_STEMS};
use levels::SideLevel;
use sizes::STEMS;

// The frames that are played at a time: no line has more.
const FRAMES: usize = 1000;

// What becomes of the frames: they are written as one WAV file of the mix or of all stems, or as one for each voice, or measured.
#[derive(Clone, Copy)]
pub(crate) enum Sound {
    Mix,
    Stems,
    Split,
    Levels,
}

// The levels of the frames behind the last tenth of a second.
#[derive(Clone, Copy, Default)]
pub(crate) struct Level {
    pub frames: usize,
    pub left: SideLevel,
    pub right: SideLevel,
    pub voices: [u32; 8],
}

// Whether a log goes on, has come to its end, or is given up.
#[derive(Clone, Copy, PartialEq, Eq)]
pub(crate) enum State {
    Going,
    Ended,
    Stopped,
}

// Kept as it is: the input buffer is lent by the caller and read into again, so what stands in it is told by its places.
// A log being played: the bytes of the input buffer from `from` to before `filled` are not played yet, and begin with line `number`;
// `frames` were played.
#[derive(Clone, Copy)]
pub(crate) struct Run {
    pub level: Level,
    pub from: usize,
    pub filled: usize,
    pub number: u64,
    pub frames: u64,
    pub state: State,
}

// The buffers of frames: the stems of both cores, and bytes to be written.
fn with_ram(
    rt: &HostRuntime,
    sound: Sound,
    waits: bool,
    ram: &mut [u8],
    queues: &mut [i16],
    stems: &mut [i16],
    others: &mut [i16],
) {
    let mut input = io::large_buffer();
    let mut out = [0u8; 2 * CHIP_STEMS * FRAMES];
    files::make(
        rt, sound, waits, &mut input, ram, queues, stems, others, &mut out,
    );
}

fn with_stems(
    rt: &HostRuntime,
    sound: Sound,
    waits: bool,
    queues: &mut [i16],
    stems: &mut [i16],
    others: &mut [i16],
) {
    let mut ram = io::large_buffer();
    with_ram(rt, sound, waits, &mut ram, queues, stems, others);
}

fn with_queues(rt: &HostRuntime, sound: Sound, waits: bool, queues: &mut [i16]) {
    let mut stems = [0i16; STEMS * FRAMES];
    let mut others = [0i16; STEMS * FRAMES];
    with_stems(rt, sound, waits, queues, &mut stems, &mut others);
}

// `waits` says that a log is waited for whose length could not be known ahead otherwise.
fn start(rt: &HostRuntime, sound: Sound, waits: bool) {
    let mut queues = [0i16; CHIP_QUEUES];
    with_queues(rt, sound, waits, &mut queues);
}

// Writes the mix of the log on standard input to standard output, as a WAV file. Where the log comes from a pipe and its sound goes to
// one, its first 65,536 bytes are waited for, and the header has the length of a log that ends within them; a log that is live is not
// waited for, and the length is not known.
pub fn write_mix(rt: &HostRuntime, live: bool) {
    start(rt, Sound::Mix, !live);
}

// The same with its stems, as one WAV file of 32 channels: a left and a right one for each voice, core 0's eight voices and then core 1's.
pub fn write_stems(rt: &HostRuntime, live: bool) {
    start(rt, Sound::Stems, !live);
}

// The same, as a WAV file for each of the sixteen voices, that of voice n to descriptor 3 + n. No log is waited for.
pub fn write_channels(rt: &HostRuntime) {
    start(rt, Sound::Split, false);
}

// Prints the levels of each tenth of a second of the log on standard input.
pub fn print_levels(rt: &HostRuntime) {
    start(rt, Sound::Levels, false);
}
