// Lists of calls on a chip, one after the other, as the calls of `s3w2` would make them.
#![tactic(auto)]

ghost use Rattle.std.specs.Prelude.{◌≡◌, Err, is_ok, true, false, ◌*◌, pos, length, get_or, replicate, eqb};
ghost use Rattle.sizes.specs.Sizes.{queue_buffer, stems_per_frame};
ghost use Rattle.cores.specs.Sizes.{chip_queues};
ghost use Rattle.tone.specs.Pcm.{is_ram_length};
ghost use Rattle.voices.specs.Accepted.{accepts_core};
ghost use Rattle.frames.specs.Listing.{asked_of, lent_list, clocked_by};
ghost use Rattle.rest.specs.Rest.{rests};
ghost use Rattle.s3w2.specs.Chips.{core_at};
ghost use Rattle.s3w2.specs.Refusals.{accepts_chip, refusal};
ghost use Rattle.chip_lists.specs.Plays.{playing, calls_played, all_played, play_refusal, play_called, play_left};
ghost use Rattle.chip_lists.specs.Second.{is_alone, is_shared, Lends, Leaves, Says, SecondLeaves};

use cores::{CHIP_QUEUES, NUM_CORES};
use frames::{Asked, clocked_by};
use s3w2::{Called, Chip, Refusal, Returned};
use sizes::{QUEUE_BUFFER, STEMS};
use version::SguVersion;
use voices::Core;

// Whether a call is core 1's too: RAM writes, clocks and versions are.
fn is_shared(call: Asked) -> bool
    ensures { result ≡ is_shared call }
{
    matches!(call, Asked::WritePcmRam | Asked::Clock | Asked::SetVersion)
}

// Whether core 0's own list is all: core 1 is at rest, and what is lent is of the right lengths.
fn is_alone(second: Core, ram: usize, queues: usize, stems: usize, others: usize) -> bool
    ensures { result ≡ is_alone second ram queues stems others }
{
    if !tone::is_ram_length(ram) {
        return false;
    }
    if queues != CHIP_QUEUES {
        return false;
    }
    if others != stems {
        return false;
    }
    rest::rests(second)
}

// Core 1 after a list of one call, which core 0 has played. A version that lacks it has no frames of it.
fn second_call(
    core: Core,
    version: SguVersion,
    kinds: &[u8],
    addresses: &[u32],
    values: &mut [u8],
    ram: &mut [u8],
    queues: &mut [i16],
    others: &mut [i16],
) -> Core
    requires fact_1 { (length kinds.now ≡ 1) × (length addresses.now ≡ 1) × (length values.old ≡ 1) }
    requires fact_2 { length queues.old ≡ queue_buffer }
    requires fact_3 { accepts_core core version (length ram.old) ≡ true }
    requires fact_4 { length others.old ≡ stems_per_frame * clocked_by kinds.now addresses.now 0 }
    ensures { SecondLeaves kinds.now addresses.now (asked_of (get_or kinds.now 0 0))
        (lent_list core version ram.old queues.old values.old) others.old
        result ram.new queues.new values.new others.new }
{
    let call = Asked::from(kinds[0]);
    if !is_shared(call) {
        return core;
    }
    if (call == Asked::Clock) & (version.core_count() < NUM_CORES) {
        stream::clear(others);
        return core;
    }
    match frames::play(core, version, kinds, addresses, values, ram, queues, others) {
        Some(played) => played.core,
        None => core,
    }
}

// The first refusal of a list: 14 where a stem buffer has not 16 stems for each frame that it clocks.
fn refusal_of_list(chip: Chip, length: usize, queues: usize, enough: bool) -> Result<(), Refusal>
    ensures { result ≡ refusal (is_ram_length length) (eqb queues chip_queues) (accepts_chip chip length) enough }
{
    chip.refusal_of_sound(length, queues)?;
    if !enough {
        return Err(Refusal::StemBuffer);
    }
    Ok(())
}

// The first refusal of a list whose stem buffers are not as they should be.
fn refusal_without_stems(chip: Chip, length: usize, queues: usize) -> Refusal
    ensures { Err result ≡ refusal (is_ram_length length) (eqb queues chip_queues) (accepts_chip chip length) false }
{
    match chip.refusal_of_sound(length, queues) {
        Ok(()) => Refusal::StemBuffer,
        Err(refusal) => refusal,
    }
}

// A list of one call: on core 0, and then on core 1.
fn play_one(
    chip: Chip,
    kinds: &[u8],
    addresses: &[u32],
    values: &mut [u8],
    ram: &mut [u8],
    queues: &mut [i16],
    stems: &mut [i16],
    others: &mut [i16],
) -> Chip
    requires fact_1 { (length kinds.now ≡ 1) × (length addresses.now ≡ 1) × (length values.old ≡ 1) }
    requires fact_2 { Lends kinds.now addresses.now (playing chip ram.old queues.old values.old stems.old others.old) }
    ensures { Leaves (calls_played kinds.now addresses.now 1
        (playing chip ram.old queues.old values.old stems.old others.old))
        result ram.new queues.new values.new stems.new others.new }
{
    let version = chip.version;
    let first = chip.cores[0];
    let second = chip.cores[1];
    let Some(played) = frames::play(
        first,
        version,
        kinds,
        addresses,
        &mut *values,
        &mut *ram,
        &mut queues[..QUEUE_BUFFER],
        stems,
    ) else {
        return chip;
    };
    let next = played.core;
    let under = played.version;
    let other = second_call(
        second,
        version,
        kinds,
        addresses,
        values,
        ram,
        &mut queues[QUEUE_BUFFER..],
        others,
    );
    Chip {
        version: under,
        cores: [next, other],
    }
}

// Call after call.
fn play_each(
    chip: Chip,
    kinds: &[u8],
    addresses: &[u32],
    values: &mut [u8],
    ram: &mut [u8],
    queues: &mut [i16],
    stems: &mut [i16],
    others: &mut [i16],
) -> Chip
    requires { Lends kinds.now addresses.now (playing chip ram.old queues.old values.old stems.old others.old) }
    ensures { Leaves (all_played kinds.now addresses.now
        (playing chip ram.old queues.old values.old stems.old others.old))
        result ram.new queues.new values.new stems.new others.new }
{
    let count = kinds.len().min(addresses.len().min(values.len()));
    let mut chip = chip;
    let mut at = 0;
    for i in 0..count {
        let end = i + 1;
        let to = at + STEMS * clocked_by(kinds[i], addresses[i]);
        chip = play_one(
            chip,
            &kinds[i..end],
            &addresses[i..end],
            &mut values[i..end],
            &mut *ram,
            &mut *queues,
            &mut stems[at..to],
            &mut others[at..to],
        );
        at = to;
    }
    chip
}

// The same where core 1 is at rest: it gives zeros and does not move. Core 0's list says by itself whether it is played.
fn play_first(
    chip: Chip,
    kinds: &[u8],
    addresses: &[u32],
    values: &mut [u8],
    ram: &mut [u8],
    queues: &mut [i16],
    stems: &mut [i16],
    others: &mut [i16],
) -> Called
    requires { is_alone (core_at chip 1) (length ram.old) (length queues.old) (length stems.old) (length others.old) ≡ true }
    ensures { Says kinds.now addresses.now
        (playing chip ram.old queues.old values.old stems.old others.old)
        result ram.new queues.new values.new stems.new others.new }
{
    let version = chip.version;
    let first = chip.cores[0];
    let own = &mut queues[..QUEUE_BUFFER];
    let Some(played) = frames::play(
        first, version, kinds, addresses, values, &mut *ram, own, stems,
    ) else {
        let refusal = refusal_without_stems(chip, ram.len(), queues.len());
        return chip.answers(Err(refusal));
    };
    stream::clear(others);
    let next = played.core;
    let under = played.version;
    let second = chip.cores[1];
    let after = Chip {
        version: under,
        cores: [next, second],
    };
    Called {
        chip: after,
        answer: Ok(Returned::Done),
    }
}

// A list of calls, one after the other: as many as there are kinds, addresses and values. A call's kind is one of
// `frames`' numbers; its value is what it writes, or what it has read; a clock's address is its number of frames, a
// version's its number. Registers are core 0's; `stems` are core 0's, `others` core 1's.
// Kept as it is: of a list only the values change, and the shared slices say so by their type, where a slice of structs would need
// clauses that kinds and addresses stay; and a run of RAM writes hands its addresses on as one slice. So too for what is lent
// beside the list: a struct of it would need a clause for what a call leaves as it is.
pub fn play(
    chip: Chip,
    kinds: &[u8],
    addresses: &[u32],
    values: &mut [u8],
    ram: &mut [u8],
    queues: &mut [i16],
    stems: &mut [i16],
    others: &mut [i16],
) -> Called
    ensures called { result ≡ play_called kinds.now addresses.now
        (playing chip ram.old queues.old values.old stems.old others.old) }
    ensures ram { ram.new
        ≡ (play_left kinds.now addresses.now
        (playing chip ram.old queues.old values.old stems.old others.old)).ram }
    ensures queues { queues.new
        ≡ (play_left kinds.now addresses.now
        (playing chip ram.old queues.old values.old stems.old others.old)).queues }
    ensures values { values.new
        ≡ (play_left kinds.now addresses.now
        (playing chip ram.old queues.old values.old stems.old others.old)).values }
    ensures stems { stems.new
        ≡ (play_left kinds.now addresses.now
        (playing chip ram.old queues.old values.old stems.old others.old)).stems }
    ensures others { others.new
        ≡ (play_left kinds.now addresses.now
        (playing chip ram.old queues.old values.old stems.old others.old)).others }
    ensures ram_value { accepts_chip chip (length ram.old) ≡ true → accepts_chip result.chip (length ram.old) ≡ true }
    ensures silent { rests (core_at chip 1) ≡ true
        → is_ok (play_refusal kinds.now addresses.now
        (playing chip ram.old queues.old values.old stems.old others.old)) ≡ true
        → others.new ≡ replicate (length others.old) (pos 0) }
{
    if is_alone(
        chip.cores[1],
        ram.len(),
        queues.len(),
        stems.len(),
        others.len(),
    ) {
        return play_first(chip, kinds, addresses, values, ram, queues, stems, others);
    }
    let enough = frames::fills(kinds, addresses, &*values, stems.len());
    let alike = others.len() == stems.len();
    if let Err(refusal) = refusal_of_list(chip, ram.len(), queues.len(), enough & alike) {
        return chip.answers(Err(refusal));
    }
    let after = play_each(chip, kinds, addresses, values, ram, queues, stems, others);
    after.answers(Ok(Returned::Done))
}
