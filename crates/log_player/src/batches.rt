// Lines, many at a time: the chip is handed over once for all of them.
ghost use Rattle.std.specs.Prelude.{◌≡◌, ◌+◌, ◌*◌, ◌≤◌, ◌<◌, ◌^◌, min, true, pos, length, replicate};
ghost use Rattle.output.specs.Output.{Puts};
ghost use Rattle.sizes.specs.Sizes.{stems_per_frame};
ghost use Rattle.sides.specs.Sides.{frames_in, wrapping, added_to};
ghost use Rattle.frames.specs.Listing.{frames_asked};
ghost use Rattle.log_player.specs.Worlds.{world};
ghost use Rattle.log_player.specs.Runs.{refused_by};
ghost use Rattle.log_player.specs.Batches.{call_made, line_call, listed_call, shown_line, calls_shown, Short, Gathers, NoLine, Silent, PlaysLines, Batches};

use crate::steps::line_end;
use crate::{Batch, Gathered, ListedCall, Player, ROOM};
use frames::{
    Asked, CLOCK, PEEK_REGISTER, READ_REGISTER, SET_VERSION, WRITE_PCM_RAM, WRITE_REGISTER,
    clocked_by,
};
use log_lines::{Line, LineFault};
use output::Output;
use sizes::STEMS;

// Lines, and frames, of a batch at most. A line has at most so many frames.
const LINES: usize = 2048;

const FRAMES: usize = 1000;

// Frames for which small buffers are enough.
const FEW: usize = 64;

// The stems of so many frames.
const FEW_STEMS: usize = STEMS * FEW;

const MOST_STEMS: usize = STEMS * FRAMES;

// Kept as it is: `clocked_by` takes the number and the lists hold it, so an `Asked` would be made a number again at each use.
fn call(kind: u8, address: u32, value: u8) -> ListedCall
    ensures { result ≡ call_made kind address value }
{
    ListedCall {
        kind,
        address,
        value,
    }
}

fn line_call(line: Line) -> ListedCall
    ensures { result ≡ line_call line }
{
    match line {
        Line::Write { address, value } => call(WRITE_REGISTER, address, value),
        Line::WriteRam { address, value } => call(WRITE_PCM_RAM, address, value),
        Line::Read(address) => call(READ_REGISTER, address, 0),
        Line::Peek(address) => call(PEEK_REGISTER, address, 0),
        Line::Clock(frames) => call(CLOCK, frames, 0),
        Line::Version(version) => call(SET_VERSION, version, 0),
    }
}

// The call that a line makes; a bad line makes none.
pub fn listed_call(line: Result<Line, LineFault>) -> Result<ListedCall, LineFault>
    ensures { result ≡ listed_call line }
{
    Ok(line_call(line?))
}

// The lines from `from` on as calls: at most `most` lines and 1,000 frames, and each but the first begins where at most `budget`
// bytes are printed.
// Kept as it is: log_sound's says what all of its lists hold then, also behind the calls, this one how a run goes on behind the lines and what they print,
// so one of both would promise both and count bytes for both.
#[inline(never)]
fn gather(
    input: &[u8],
    from: usize,
    most: usize,
    budget: usize,
    kinds: &mut [u8],
    addresses: &mut [u32],
    values: &mut [u8],
) -> Gathered
    requires fact_1 { (1 ≤ most) × (most ≤ 2048) }
    requires fact_2 { (most ≤ length kinds.old) × (most ≤ length addresses.old) × (most ≤ length values.old) }
    ensures bound { result.count ≤ most }
    ensures frames { result.frames ≡ frames_asked kinds.new addresses.new 0 result.count }
    ensures gathers { Gathers input.now from result.from result.count budget kinds.new addresses.new
        values.new }
    ensures stops { result.count ≡ 0 → NoLine input.now from }
{
    let mut frames = 0;
    let mut place = from;
    // Kept as it is: the count is also what the loop's exits answer, and a zip of three `iter_mut` with `enumerate` would be longer.
    for count in 0..most {
        let Some(stop) = line_end(input, place) else {
            return gathered(count, frames, place);
        };
        let Ok(made) = listed_call(log_lines::parse(&input[place..stop])) else {
            return gathered(count, frames, place);
        };
        let more = frames + clocked_by(made.kind, made.address);
        if FRAMES < more {
            return gathered(count, frames, place);
        }
        if budget < 17 * count + 16 * frames {
            return gathered(count, frames, place);
        }
        kinds[count] = made.kind;
        addresses[count] = made.address;
        values[count] = made.value;
        frames = more;
        place = stop + 1;
    }
    gathered(most, frames, place)
}

fn gathered(count: usize, frames: usize, from: usize) -> Gathered
    ensures { (result.count ≡ count) × (result.frames ≡ frames) × (result.from ≡ from) }
{
    Gathered {
        count,
        frames,
        from,
    }
}

// Puts what a call that was made prints: `value` is the byte that it answered, the sides are its own frames'.
fn show_line(kind: u8, address: u32, value: u8, left: &[i32], right: &[i32], out: &mut Output<'_>)
    requires { out.old.at ≤ length out.old.buffer.now }
    ensures put { Puts out.old out.new (shown_line kind address value left.now right.now) }
    ensures bound { length (shown_line kind address value left.now right.now)
        ≤ 17 + 16 * min (length left.now) (length right.now) }
{
    match Asked::from(kind) {
        Asked::Read => log_lines::put_read_back(out, b'R', address, value),
        Asked::Peek => log_lines::put_read_back(out, b'P', address, value),
        Asked::Clock => log_lines::put_frames(out, left, right),
        _ => {}
    }
}

// Puts what the calls of a list print, one after the other.
fn show(
    kinds: &[u8],
    addresses: &[u32],
    values: &[u8],
    left: &[i32],
    right: &[i32],
    out: &mut Output<'_>,
)
    requires place { out.old.at ≤ length out.old.buffer.now }
    requires fact_1 { (length addresses.now ≡ length kinds.now) × (length values.now ≡ length kinds.now) }
    requires fact_2 { (frames_asked kinds.now addresses.now 0 (length kinds.now) ≤ length left.now)
        × (frames_asked kinds.now addresses.now 0 (length kinds.now) ≤ length right.now)
        × (frames_asked kinds.now addresses.now 0 (length kinds.now) ≤ 1000) }
    ensures put { Puts out.old out.new
        (calls_shown kinds.now addresses.now values.now left.now right.now
        (length kinds.now)) }
    ensures bound { Short kinds.now addresses.now values.now left.now right.now
        (length kinds.now) }
{
    let mut frame: usize = 0;
    // Kept as it is: tried over a zip of the three slices, which takes 1.3% to 1.8% more instructions in logs of small lines.
    for i in 0..kinds.len() {
        let to = frame + clocked_by(kinds[i], addresses[i]);
        show_line(
            kinds[i],
            addresses[i],
            values[i],
            &left[frame..to],
            &right[frame..to],
            &mut *out,
        );
        frame = to;
    }
}

// Adds the frames of both cores to two sides. Core 1's stems are not looked at where they are known to be zeros.
fn hear(stems: &[i16], others: &[i16], silent: bool, left: &mut [i32], right: &mut [i32])
    requires { silent ≡ true → others.now ≡ replicate (length others.now) (pos 0) }
    ensures left { left.new
        ≡ added_to wrapping (frames_in (length stems.now) (length left.old) (length right.old) 0)
        stems.now others.now 0 0 left.old }
    ensures right { right.new
        ≡ added_to wrapping (frames_in (length stems.now) (length left.old) (length right.old) 0)
        stems.now others.now 1 0 right.old }
{
    if silent {
        sides::add(stems, &others[..0], left, right, 0);
        return;
    }
    sides::add(stems, others, left, right, 0);
}

impl Player {
    // Plays the lines of a list, over silent buffers for its frames.
    // Kept as it is: chip_lists::play is lent the RAM and the queue buffer apart, and each contract here is of what both are behind it, so a struct of
    // both would need a fact in each that it still lends the same two.
    fn play_over(
        self,
        kinds: &[u8],
        addresses: &[u32],
        values: &mut [u8],
        ram: &mut [u8],
        queues: &mut [i16],
        stems: &mut [i16],
        others: &mut [i16],
        left: &mut [i32],
        right: &mut [i32],
        out: &mut Output<'_>,
    ) -> Player
        requires place { out.old.at ≤ length out.old.buffer.now }
        requires fact_1 { refused_by (world self ram.old queues.old) ≡ 0 }
        requires fact_2 { Silent kinds.now addresses.now values.old stems.old others.old left.old right.old }
        ensures { PlaysLines kinds.now addresses.now values.old
            (world self ram.old queues.old) (world result ram.new queues.new) out.old out.new }
    {
        let chip = self.chip;
        let silent = rest::rests(chip.cores[1]);
        let called = chip_lists::play(
            chip,
            kinds,
            addresses,
            &mut *values,
            ram,
            queues,
            &mut *stems,
            &mut *others,
        );
        hear(&*stems, &*others, silent, &mut *left, &mut *right);
        show(kinds, addresses, &*values, &*left, &*right, out);
        let next = called.chip;
        Player {
            chip: next,
            left: log_lines::peak(self.left, &*left),
            right: log_lines::peak(self.right, &*right),
        }
    }

    // The same over buffers of its own: for N frames, whose stems are S.
    fn play_within<const N: usize, const S: usize>(
        self,
        kinds: &[u8],
        addresses: &[u32],
        values: &mut [u8],
        frames: usize,
        ram: &mut [u8],
        queues: &mut [i16],
        out: &mut Output<'_>,
    ) -> Player
        requires place { out.old.at ≤ length out.old.buffer.now }
        requires fact_1 { refused_by (world self ram.old queues.old) ≡ 0 }
        requires fact_2 { (length addresses.now ≡ length kinds.now) × (length values.old ≡ length kinds.now)
            × (frames ≡ frames_asked kinds.now addresses.now 0 (length kinds.now)) × (frames ≤ N) }
        requires fact_3 { (N ≤ 1000) × (S ≡ stems_per_frame * N) }
        ensures { PlaysLines kinds.now addresses.now values.old
            (world self ram.old queues.old) (world result ram.new queues.new) out.old out.new }
    {
        let mut left = [0i32; N];
        let mut right = [0i32; N];
        let mut stems = [0i16; S];
        let mut others = [0i16; S];
        let s = STEMS * frames;
        self.play_over(
            kinds,
            addresses,
            values,
            ram,
            queues,
            &mut stems[..s],
            &mut others[..s],
            &mut left[..frames],
            &mut right[..frames],
            out,
        )
    }

    // By the number of its frames, with small buffers or with large ones.
    fn play_list(
        self,
        kinds: &[u8],
        addresses: &[u32],
        values: &mut [u8],
        frames: usize,
        ram: &mut [u8],
        queues: &mut [i16],
        out: &mut Output<'_>,
    ) -> Player
        requires place { out.old.at ≤ length out.old.buffer.now }
        requires fact { (refused_by (world self ram.old queues.old) ≡ 0) × ((length addresses.now ≡ length kinds.now) × (length values.old ≡ length kinds.now)
            × (frames ≡ frames_asked kinds.now addresses.now 0 (length kinds.now)) × (frames ≤ 1000)) }
        ensures { PlaysLines kinds.now addresses.now values.old
            (world self ram.old queues.old) (world result ram.new queues.new) out.old out.new }
    {
        if frames <= FEW {
            return self.play_within::<FEW, FEW_STEMS>(
                kinds, addresses, values, frames, ram, queues, out,
            );
        }
        self.play_within::<FRAMES, MOST_STEMS>(kinds, addresses, values, frames, ram, queues, out)
    }

    // Plays lines from `from` on, of which the first is the log's line `number`, and puts what they print into out:
    // at least one where there is one.
    pub(crate) fn batch(
        self,
        input: &[u8],
        from: usize,
        number: u64,
        ram: &mut [u8],
        queues: &mut [i16],
        out: &mut Output<'_>,
    ) -> Batch
        requires fact_1 { refused_by (world self ram.old queues.old) ≡ 0 }
        requires fact_2 { (number + 1 < 2 ^ 64) × (out.old.at + 16384 ≤ length out.old.buffer.now) }
        ensures { Batches input.now (world self ram.old queues.old) number from
            (world result.player ram.new queues.new) result.number result.from out.old out.new }
    {
        // Kept as it is: chip_lists::play is lent three lists, so one array of calls would have to be copied into three.
        let mut kinds = [0u8; LINES];
        let mut addresses = [0u32; LINES];
        let mut values = [0u8; LINES];
        let most = LINES.min(usize::MAX - (number as usize));
        let budget = out.buffer.len() - out.at - ROOM;
        let found = gather(
            input,
            from,
            most,
            budget,
            &mut kinds,
            &mut addresses,
            &mut values,
        );
        let n = found.count;
        if n == 0 {
            return Batch {
                player: self,
                from,
                number,
            };
        }
        let player = self.play_list(
            &kinds[..n],
            &addresses[..n],
            &mut values[..n],
            found.frames,
            ram,
            queues,
            out,
        );
        Batch {
            player,
            from: found.from,
            number: number + (n as u64),
        }
    }
}
