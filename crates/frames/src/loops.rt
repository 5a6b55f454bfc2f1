// Turns of one voice after another, and calls between them.
ghost use Rattle.std.specs.Prelude.{◌≡◌, ◌+◌, ◌-◌, ◌*◌, ◌/◌, ◌<◌, ◌≤◌, true, false, [], ◌∷◌, length, FitsSigned};
ghost use Rattle.std.proofs.lemmas.List.Edits.{sets};
ghost use Rattle.std.specs.Int.{w16};
ghost use Rattle.sizes.specs.Sizes.{queue_buffer, stems_per_frame};
ghost use Rattle.voices.specs.Accepted.{accepts_core, AcceptedCore};
ghost use Rattle.frames.specs.Turning.{may_run, run_of};
ghost use Rattle.frames.specs.Listing.{lent_list, after_calls, LeftBy, clock_turns, listed, frames_asked, EachAccepted, AllStore};

use crate::{Asked, Going, Round};
use sizes::{FIFO_CAPACITY, QUEUE_BUFFER};
use ticks::Sides;
use version::SguVersion;
use voice::Kind;
use voices::Core;

fn put_sides(stems: &mut [i16], at: usize, sides: Sides)
    requires fact_1 { at + 1 < length stems.old }
    requires fact_2 { FitsSigned w16 sides.left × FitsSigned w16 sides.right }
    ensures { stems.new ≡ sets stems.old at (sides.left ∷ sides.right ∷ []) }
{
    stems[at] = sides.left as i16;
    stems[at + 1] = sides.right as i16;
}

// Some turns, then the calls of a list from `from` to before `to`, none of which writes to the RAM: a clock of m frames is 8 m
// turns. The eight voices stay in one place. A stream's cache is stored only where its ticks may have changed it. After the
// ticks that are served the voice is read anew: they then read no more of it than they use, and of what they do not change
// nothing is stored.
// Kept as it is: with a loop for the turns inside a loop over the calls frames of wave voices take 1.18 times the time, of FIFO voices 1.9 times.
pub(crate) fn play_calls(
    core: Core,
    version: SguVersion,
    first: usize,
    n: usize,
    turns: usize,
    kinds: &[u8],
    addresses: &[u32],
    values: &mut [u8],
    from: usize,
    to: usize,
    ram: &[u8],
    queues: &mut [i16],
    stems: &mut [i16],
    at: usize,
) -> Going
    requires fact_1 { (1 ≤ n) × (n ≤ 4) }
    requires fact_2 { length queues.old ≡ queue_buffer }
    requires fact_3 { accepts_core core version (length ram.now) ≡ true }
    requires fact_4 { (to ≤ length kinds.now) × (to ≤ length addresses.now) × (to ≤ length values.old)
        × (at + (2 * turns + stems_per_frame * frames_asked kinds.now addresses.now from (to - from)) ≤ length stems.old) }
    requires fact_5 { AllStore kinds.now addresses.now false from to }
    ensures result { result ≡ after_calls (listed kinds.now addresses.now first n from (to - from)
        (clock_turns first n turns (lent_list core version ram.now queues.old values.old)))
        (at + (2 * turns + stems_per_frame * frames_asked kinds.now addresses.now from (to - from))) }
    ensures left { LeftBy (listed kinds.now addresses.now first n from (to - from)
        (clock_turns first n turns (lent_list core version ram.now queues.old values.old)))
        at stems.old ram.now queues.new values.new stems.new }
    ensures accepted_core { AcceptedCore result.core result.version (length ram.now) }
    ensures each_accepted { EachAccepted kinds.now addresses.now first n from (to - from)
        (clock_turns first n turns (lent_list core version ram.now queues.old values.old)) }
    ensures queues_len_unchanged { (length queues.new ≡ length queues.old) × (length values.new ≡ length values.old) }
{
    let mut core = core;
    let mut version = version;
    let mut place = at;
    let mut i = from;
    let mut turn: usize = 0;
    let mut stop = turns;
    loop {
        if turn < stop {
            let of = Round { version, first };
            let ch = of.channel(turn);
            let mut sides = Sides::silent();
            match core.channels[ch].kind() {
                Kind::Silent => {}
                Kind::Oscillator => {
                    let c = core.channels[ch];
                    let a = c.target_channel(ch);
                    let t = of.target(core.channels[a]);
                    let v = of.oscillator(c, n, &core.wavetables, ram, ch, t);
                    core.channels[ch] = c.after_sound(v);
                    sides = v.sides;
                }
                Kind::Sqv4 => {
                    let c = core.channels[ch];
                    let r = of.served(c, n, &core.fragments, ch);
                    if r.ticks == n {
                        let d = core.channels[ch];
                        core.channels[ch] = d.after_served(r);
                        sides = r.sides;
                    } else {
                        let d = core.channels[ch];
                        let v = of.stream(d, n, &mut core.fragments, ram, ch, r);
                        core.channels[ch] = d.after_stream(v);
                        sides = v.sides;
                    }
                }
                Kind::FifoDac => {
                    let c = core.channels[ch];
                    let v = of.queue(c, n, &mut *queues, ch);
                    core.channels[ch] = c.after_queue(v);
                    sides = v.sides;
                }
            }
            put_sides(&mut *stems, place, sides);
            place += 2;
            turn += 1;
        } else {
            if to <= i {
                return Going {
                    core,
                    version,
                    at: place,
                };
            }
            turn = 0;
            stop = 0;
            let address = addresses[i];
            match Asked::from(kinds[i]) {
                Asked::WritePcmRam => {}
                Asked::WriteRegister => {
                    let value = values[i];
                    if address < 0x800 {
                        core.wavetables[address as usize] = value;
                    } else if address < 0x900 {
                        let ch = voices::channel_of(address);
                        let offset = voices::offset_of(address);
                        let start = ch * FIFO_CAPACITY;
                        let end = start + FIFO_CAPACITY;
                        let c = core.channels[ch];
                        let d = voices::write_at(
                            c,
                            version,
                            &mut queues[start..end],
                            offset,
                            value,
                        );
                        core.channels[ch] = d;
                        if voices::empties(offset) {
                            voices::clear_fragments(&mut core.fragments, ch);
                        }
                    }
                }
                Asked::Read => {
                    let ch = voices::channel_of(address);
                    let c = core.channels[ch];
                    values[i] = voices::seen(c, version, &core.wavetables, address);
                    if voices::read_empties(address) {
                        core.channels[ch] = c.after_read(0x0A);
                        voices::clear_fragments(&mut core.fragments, ch);
                    }
                }
                Asked::Peek => {
                    let c = core.channels[voices::channel_of(address)];
                    values[i] = voices::seen(c, version, &core.wavetables, address);
                }
                Asked::Clock => stop = 8 * (address as usize),
                Asked::SetVersion => {
                    version = SguVersion::from(address as u64);
                    core = core.set_version(version);
                }
                Asked::Nothing => {}
            }
            i += 1;
        }
    }
}

// What turns ask for: 16,384 queue entries, one to four ticks, accepted voices.
pub(crate) fn may_run(
    core: Core,
    version: SguVersion,
    ram: &[u8],
    queues: &[i16],
    ticks: usize,
) -> bool
    ensures { result ≡ may_run version ram.now queues.now ticks core }
{
    if queues.len() != QUEUE_BUFFER {
        return false;
    }
    if ticks < 1 {
        return false;
    }
    if 4 < ticks {
        return false;
    }
    core.accepts(version, ram.len())
}

// Turns of so many ticks, one for each two stems, from a first voice on and round again. Turns that ask for something else
// are none.
pub fn run(
    core: Core,
    version: SguVersion,
    ram: &[u8],
    queues: &mut [i16],
    first: usize,
    ticks: usize,
    stems: &mut [i16],
) -> Core
    ensures result { result ≡ (run_of version ram.now queues.old first ticks (length stems.old / 2) core).core }
    ensures stems { stems.new
        ≡ sets stems.old 0
        (run_of version ram.now queues.old first ticks (length stems.old / 2) core).stems }
    ensures ram_value { accepts_core core version (length ram.now) ≡ true → accepts_core result version (length ram.now) ≡ true }
    ensures queues { queues.new ≡ queues.old }
{
    if may_run(core, version, ram, &*queues, ticks) {
        let kinds = [0u8];
        let addresses = [0u32];
        let mut values = [0u8];
        let turns = stems.len() / 2;
        let p = play_calls(
            core,
            version,
            first,
            ticks,
            turns,
            &kinds,
            &addresses,
            &mut values,
            0,
            0,
            ram,
            queues,
            stems,
            0,
        );
        return p.core;
    }
    core
}
