// Plays a script of calls: reads lines from standard input, prints each call's answer. oracle/README.md lists the lines.
#![tactic(auto)]

mod answers;
mod calls;
mod fields;
mod sounding;

use cores::{CHIP_QUEUES, LAST_CORE};
use output::Output;
use s3w2::Chip;
use version::SguVersion;

// The most fields that a line has, its letter the first of them.
const FIELDS: usize = 513;

// The most bytes of RAM that a line can have lent. oracle/compare_chip builds the program with more.
const RAM_ROOM: usize = 1048576;

// More bytes than a line's answer has: 16,384 samples of a clock are the longest, with at most 7 bytes each.
const ANSWER_ROOM: usize = 131072;

// The lengths of RAM and queue buffer that are lent to the chip, and the core that lines name.
// Kept as it is: a later line may ask for more again, so the lengths stand beside the whole buffers.
#[derive(Clone, Copy)]
struct Lent {
    ram: usize,
    queues: usize,
    core: usize,
}

impl Lent {
    // With what a line asks for from then on.
    fn after(mut self, line: &[u64]) -> Lent {
        match fields::letter(line) {
            b'l' => {
                self.ram = fields::size(line, 1);
                self.queues = fields::size(line, 2);
            }
            b'N' => {
                self.ram = fields::size(line, 2);
                self.queues = CHIP_QUEUES;
                self.core = 0;
            }
            b'k' => self.core = fields::size(line, 1),
            _ => {}
        }
        self
    }
}

// A chip, the buffers of which it is lent the first entries, and the answers that are not written yet.
#[derive(Drop)]
struct Player<'a> {
    chip: Chip,
    lent: Lent,
    ram: &'a mut [u8],
    queues: &'a mut [i16],
    out: Output<'a>,
}

impl Player<'_> {
    // Plays a line's fields.
    fn play(&mut self, line: &[u64]) {
        let mut numbers = [0u64; sounding::STEMS];
        let lent = self.lent.after(line);
        let n = lent.ram.min(self.ram.len());
        let q = lent.queues.min(self.queues.len());
        let last = self.chip;
        let ram = &mut self.ram[..n];
        let queues = &mut self.queues[..q];
        let called = calls::called(last, lent.core, line, &mut *ram, &mut *queues, &mut numbers);
        let chip = called.chip;
        let k = lent.core.min(LAST_CORE);
        let core = chip.cores[k];
        let out = &mut self.out;
        answers::put(out, called.answer, core, k, line, &*ram, &*queues, &numbers);
        self.chip = chip;
        self.lent = lent;
    }

    // Plays one line, without its closing byte 10.
    fn line(&mut self, text: &[u8]) {
        let letter = num::byte_at(text, 0);
        let mut f = [letter as u64; FIELDS];
        let count = fields::parse(text, &mut f);
        self.play(&f[..count]);
    }
}

// A chip over the first bytes of the RAM.
fn first(ram: &mut [u8]) -> Chip {
    let length = ram.len().min(256);
    let called = Chip::with_version(&mut ram[..length], SguVersion::V3_1);
    called.chip
}

// Plays every line of the input.
fn play_lines(rt: &HostRuntime, player: &mut Player<'_>, text: &mut [u8]) {
    let mut before = None;
    for _ in 0..u64::MAX {
        let Some(line) = program::next_line(rt, &mut *text, before) else {
            return;
        };
        player.line(num::part(&*text, line.from, line.to));
        before = Some(line);
    }
}

fn with_texts(rt: &HostRuntime, ram: &mut [u8], queues: &mut [i16]) {
    let mut text = io::large_buffer();
    let mut buffer = [0u8; 2 * ANSWER_ROOM];
    let chip = first(&mut *ram);
    let mut player = Player {
        chip,
        lent: Lent {
            ram: 256,
            queues: CHIP_QUEUES,
            core: 0,
        },
        ram,
        queues,
        out: Output {
            buffer: &mut buffer,
            at: 0,
        },
    };
    play_lines(rt, &mut player, &mut text);
    let end = player.out.at;
    program::flush(&buffer, end, 2 * ANSWER_ROOM);
}

fn main(rt: HostRuntime) {
    let mut ram = [0x55u8; RAM_ROOM];
    let mut queues = [0i16; CHIP_QUEUES + 16];
    with_texts(&rt, &mut ram, &mut queues);
}
