// A voice line read, as a stored one or as any: a chip without a FIFO drops what a stored one has in its queue.
ghost use Rattle.std.specs.Prelude.{◌≡◌};
ghost use Rattle.std.proofs.lemmas.List.Edits.{sets};
ghost use Rattle.session_lines.specs.Numbers.{at, table_of, queued_samples};
ghost use Rattle.session_lines.specs.Lines.{queue_told, voice_in, read_as, told_of, channel_after, table_after, queue_after};
ghost use Rattle.session_lines.specs.Lines.{voice_line_number, voice_refusal};

use crate::VoiceError;
use crate::states::LineNumbers;
use registers::Fifo;
use version::SguVersion;
use voice::Channel;

fn queue_told(line: LineNumbers) -> Fifo
    ensures { result ≡ queue_told line.entry.stored line.entry.version (at line.entry.numbers.now) }
{
    let queue = line.fifo();
    if line.stored {
        return queue.kept(line.version);
    }
    queue
}

fn told(line: LineNumbers) -> Result<usize, VoiceError>
    ensures { result ≡ told_of (voice_in line.entry.stored line.entry.version line.entry.numbers.now) }
{
    let queue = queue_told(line);
    if !queue.is_allowed(line.version) {
        return Err(VoiceError::Queued);
    }
    Ok(line.voice())
}

// Kept as it is: a caller has the flag and the version apart, so a struct of both would be made anew for each call.
// What a line of a session text is: that of a voice, or the first field at fault, or a queue that the version does not have.
pub fn check_voice(stored: bool, version: SguVersion, text: &[u8]) -> Result<usize, VoiceError>
    ensures result { result ≡ told_of (read_as stored version text.now) }
    ensures number { voice_line_number result ≡ voice_refusal (read_as stored version text.now) }
{
    let mut numbers = [0u64; 2330];
    line_fields::read_line(version.has_3ws8pna(), text, &mut numbers)?;
    told(LineNumbers {
        stored,
        version,
        numbers: &numbers,
    })
}

// The wavetable of a line, as far as there is room.
fn take_table(line: LineNumbers, wavetable: &mut [u8])
    ensures { wavetable.new ≡ sets wavetable.old 0 (table_of (at line.entry.numbers.now)) }
{
    let end = wavetable.len().min(256);
    for i in 0..end {
        wavetable[i] = line.byte(25 + i);
    }
}

// The first samples of a line, as far as there is room.
fn take_samples(line: LineNumbers, count: usize, queue: &mut [i16])
    ensures { queue.new ≡ sets queue.old 0 (queued_samples (at line.entry.numbers.now) count) }
{
    let end = queue.len().min(count);
    for i in 0..end {
        queue[i] = line.sample(282 + i);
    }
}

// The channel that a line makes of c.
fn take_voice(c: Channel, line: LineNumbers, wavetable: &mut [u8], queue: &mut [i16]) -> Channel
    ensures result { result ≡ channel_after (voice_in line.entry.stored line.entry.version line.entry.numbers.now) c }
    ensures wavetable { wavetable.new ≡ table_after (voice_in line.entry.stored line.entry.version line.entry.numbers.now) wavetable.old }
    ensures queue { queue.new ≡ queue_after (voice_in line.entry.stored line.entry.version line.entry.numbers.now) queue.old }
{
    let told = queue_told(line);
    if !told.is_allowed(line.version) {
        return c;
    }
    let count = told.count;
    take_table(line, wavetable);
    take_samples(line, count, queue);
    line.channel(told)
}

// The channel that a line's voice becomes; its wavetable and its queue's first entries are put into the parts lent. A line
// that tells of no voice changes nothing.
// Kept as it is: its callers have the flag and the version apart, as those of `check_voice`.
pub fn read_voice(
    c: Channel,
    stored: bool,
    version: SguVersion,
    text: &[u8],
    wavetable: &mut [u8],
    queue: &mut [i16],
) -> Channel
    ensures result { result ≡ channel_after (read_as stored version text.now) c }
    ensures wavetable { wavetable.new ≡ table_after (read_as stored version text.now) wavetable.old }
    ensures queue { queue.new ≡ queue_after (read_as stored version text.now) queue.old }
{
    let mut numbers = [0u64; 2330];
    let fields = line_fields::read_line(version.has_3ws8pna(), text, &mut numbers);
    match fields {
        Ok(_) => take_voice(
            c,
            LineNumbers {
                stored,
                version,
                numbers: &numbers,
            },
            wavetable,
            queue,
        ),
        Err(_) => c,
    }
}
