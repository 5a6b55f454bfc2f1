// s3w2-timed: plays the log with frame times on standard input and prints what it gives on standard output.
#![tactic(auto)]

mod playing;

use cores::CHIP_QUEUES;

// What the chip's calls are lent.
#[derive(Drop)]
pub(crate) struct Lent<'a> {
    pub ram: &'a mut [u8],
    pub queues: &'a mut [i16],
}

fn with_buffers(rt: &HostRuntime, lent: &mut Lent<'_>) {
    let mut input = io::large_buffer();
    let mut plain = [0u8; 66560];
    let mut text = [0u8; 67584];
    playing::play(rt, &mut input, &mut plain, &mut text, lent);
}

fn with_queues(rt: &HostRuntime, queues: &mut [i16]) {
    let mut ram = io::large_buffer();
    let mut lent = Lent {
        ram: &mut ram,
        queues,
    };
    with_buffers(rt, &mut lent);
}

fn main(rt: HostRuntime) {
    let mut queues = [0i16; CHIP_QUEUES];
    with_queues(&rt, &mut queues);
}
