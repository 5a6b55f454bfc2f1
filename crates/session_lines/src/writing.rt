// A voice line written.
ghost use Rattle.std.specs.Prelude.{◌≡◌, ◌%◌, min, pos, get_or};
ghost use Rattle.std.proofs.lemmas.List.Edits.{sets};
ghost use Rattle.sizes.specs.Sizes.{fifo_capacity};
ghost use Rattle.line_fields.specs.Text.{written_of, put_of, written_number, room_refusal};
ghost use Rattle.session_lines.specs.Numbers.{table_numbers, queue_numbers};
ghost use Rattle.session_lines.specs.Lines.{voice_text};

use crate::states::state_numbers;
use cores::CHIP_VOICES;
use line_fields::{RoomError, put_number};
use registers::Fifo;
use sizes::FIFO_CAPACITY;
use voice::Channel;

// Puts some numbers at a buffer's beginning, as far as there is room.
fn put_first(first: &[u64], numbers: &mut [u64])
    ensures { numbers.new ≡ sets numbers.old 0 first.now }
{
    let count = first.len().min(numbers.len());
    numbers[..count].copy_from_slice(&first[..count]);
}

// The 256 bytes of a wavetable; those past its end are 0.
// Kept as it is: 256 numbers are put where the wavetable is shorter too, so there is no slice to go over.
fn put_table(wavetable: &[u8], numbers: &mut [u64])
    ensures { numbers.new ≡ sets numbers.old 25 (table_numbers wavetable.now) }
{
    for i in 0..256 {
        put_number(numbers, 25 + i, num::byte_at(wavetable, i) as u64);
    }
}

fn entry(queue: &[i16], at: usize) -> i16
    ensures { result ≡ get_or queue.now (at % fifo_capacity) (pos 0) }
{
    queue.get(at % FIFO_CAPACITY).copied().unwrap_or(0)
}

// The queue's count and its samples, oldest first; answers the count.
// Kept as it is: the queue's places go round and come with a place among the numbers, so both come of one index.
fn put_queue(f: Fifo, queue: &[i16], numbers: &mut [u64]) -> usize
    ensures result { result ≡ min f.count fifo_capacity }
    ensures numbers { numbers.new ≡ sets numbers.old 281 (queue_numbers f queue.now) }
{
    let count = f.count.min(FIFO_CAPACITY);
    let head = f.head % FIFO_CAPACITY;
    put_number(numbers, 281, count as u64);
    for i in 0..count {
        let sample = entry(queue, head + i);
        put_number(numbers, 282 + i, num::bits16(sample) as u64);
    }
    count
}

// Writes the line of a voice, whose wavetable and queue entries are lent, if there is room for it. No voice above 15 has a line.
pub fn write_voice(
    c: Channel,
    voice: usize,
    wavetable: &[u8],
    queue: &[i16],
    out: &mut [u8],
) -> Result<usize, RoomError>
    ensures result { result ≡ written_of out.old (voice_text voice c wavetable.now queue.now) }
    ensures out { out.new ≡ put_of out.old (voice_text voice c wavetable.now queue.now) }
    ensures number { written_number result ≡ room_refusal out.old (voice_text voice c wavetable.now queue.now) }
{
    if CHIP_VOICES <= voice {
        return Ok(0);
    }
    let mut numbers = [0u64; 2330];
    let f = c.fifo;
    let states = state_numbers(c, voice);
    put_first(&states, &mut numbers);
    put_table(wavetable, &mut numbers);
    let count = put_queue(f, queue, &mut numbers);
    let end = 282 + count;
    line_fields::write_line(&numbers[..end], out)
}
