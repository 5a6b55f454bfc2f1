// A line's call.
use crate::{fields, sounding};
use cores::LAST_CORE;
use s3w2::{Answer, Called, Chip, Returned};

// The calls that change nothing; no other letter is a call.
fn asked(chip: Chip, core: usize, line: &[u64], ram: &[u8]) -> Answer {
    let ch = fields::size(line, 1);
    let a = fields::word(line, 1);
    let x = fields::byte(line, 2);
    match fields::letter(line) {
        b'P' => chip.peek_register(core, a),
        b't' => chip.read_channel_wavetable(core, ch, x),
        b'q' => chip.read_channel_pcm_reg(core, ch, x),
        b'w' => chip.wavetable_length(core, ch),
        b'i' => chip.interpolates(core, ch),
        b'm' => chip.read_pcm_ram(ram, a),
        _ => Ok(Returned::Done),
    }
}

// The calls that write to no buffer.
fn called_alone(chip: Chip, core: usize, line: &[u64], ram: &[u8]) -> Called {
    let ch = fields::size(line, 1);
    let x = fields::byte(line, 2);
    let y = fields::byte(line, 3);
    match fields::letter(line) {
        b'V' => chip.set_version(fields::version(line)),
        b'z' => chip.reset_channel(core, ch),
        b'R' => chip.read_register(core, fields::word(line, 1)),
        b'T' => chip.write_channel_wavetable(core, ch, x, y),
        b'c' => chip.read_channel_control(core, ch, x),
        b'Q' => chip.write_channel_pcm_reg(core, ch, x, y),
        _ => {
            let answer = asked(chip, core, line, ram);
            Called { chip, answer }
        }
    }
}

// Bytes of RAM, written one after the other.
fn write_bytes(chip: Chip, line: &[u64], ram: &mut [u8]) -> Called {
    let mut called = Called {
        chip,
        answer: Ok(Returned::Done),
    };
    let mut at = fields::word(line, 1);
    for field in line.iter().skip(2) {
        let last = called.chip;
        called = last.write_pcm_ram(&mut *ram, at, (*field % 256) as u8);
        at = at.wrapping_add(1);
    }
    called
}

// The calls that write to the RAM.
fn called_with_ram(chip: Chip, line: &[u64], ram: &mut [u8]) -> Called {
    match fields::letter(line) {
        b'N' => Chip::with_version(ram, fields::version(line)),
        b'Z' => chip.reset(ram),
        _ => write_bytes(chip, line, ram),
    }
}

// The chip with a voice of one of its cores set by a line.
fn set(mut chip: Chip, core: usize, line: &[u64], queues: &mut [i16]) -> Called {
    let k = core.min(LAST_CORE);
    let old = chip.cores[k];
    chip.cores[k] = fields::changed(old, line);
    fields::fill_queue(queues, k, line);
    Called {
        chip,
        answer: Ok(Returned::Done),
    }
}

// The calls that write to the queues, and those that write to no buffer.
fn called_with_queues(
    chip: Chip,
    core: usize,
    line: &[u64],
    ram: &[u8],
    queues: &mut [i16],
) -> Called {
    let ch = fields::size(line, 1);
    let x = fields::byte(line, 2);
    match fields::letter(line) {
        b'W' => chip.write_register(queues, core, fields::word(line, 1), x),
        b'C' => chip.write_channel_control(queues, core, ch, x, fields::byte(line, 3)),
        b'G' => chip_sound::generate_sample(chip, ram, queues, core, ch),
        b'E' | b'F' => set(chip, core, line, queues),
        _ => called_alone(chip, core, line, ram),
    }
}

// The call of a line over the RAM and the queues that are lent to the chip. What frames give is put to the numbers.
pub(crate) fn called(
    chip: Chip,
    core: usize,
    line: &[u64],
    ram: &mut [u8],
    queues: &mut [i16],
    numbers: &mut [u64],
) -> Called {
    match fields::letter(line) {
        b'N' | b'Z' | b'M' | b'B' => called_with_ram(chip, line, ram),
        b'S' | b'X' | b'Y' | b'y' | b's' => sounding::sounded(chip, line, ram, queues, numbers),
        _ => called_with_queues(chip, core, line, ram, queues),
    }
}
