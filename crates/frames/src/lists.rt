// A list of calls: those that write to the RAM, then those that do not, and so on.
ghost use Rattle.std.specs.Prelude.{◌≡◌, ◌-◌, ◌*◌, ◌<◌, ◌≤◌, Bool, true, false, not, length, ◌==◌, slice_index};
ghost use Rattle.std.proofs.lemmas.List.Edits.{sets};
ghost use Rattle.sizes.specs.Sizes.{queue_buffer, stems_per_frame};
ghost use Rattle.voices.specs.Accepted.{accepts_core};
ghost use Rattle.frames.specs.Listing.{lent_list, after_list, LeftBy, AcceptedAfter, listed, frames_asked, EachAccepted, AllStore, call_count, write_pcm_ram_kind, may_play, played_of, play_answer};
ghost use Rattle.frames.specs.Stored.{calls_stored};

use crate::asking::{call_count, fills};
use crate::loops::{may_run, play_calls};
use crate::{Played, WRITE_PCM_RAM};
use version::SguVersion;
use voices::Core;

// The first call from `from` on that writes to the RAM, or that does not; `count` where there is none.
fn run_end(kinds: &[u8], from: usize, count: usize, stores: bool) -> usize
    requires { (from ≤ count) × (count ≤ length kinds.now) }
    ensures bounds { (from ≤ result) × (result ≤ count) }
    ensures run { AllStore kinds.now kinds.now stores from result }
    ensures end { result < count → (slice_index kinds.now result == write_pcm_ram_kind) ≡ not stores }
{
    let ends = |kind: &u8| (*kind == WRITE_PCM_RAM) != stores;
    match kinds[from..count].iter().position(ends) {
        Some(calls) => from + calls,
        None => count,
    }
}

// The bytes that calls write to the RAM; an address past its end is none.
fn store_bytes(ram: &mut [u8], addresses: &[u32], values: &[u8])
    requires { length addresses.now ≡ length values.now }
    ensures { ram.new ≡ calls_stored addresses.now values.now 0 (length addresses.now) ram.old }
{
    for (&address, &value) in addresses.iter().zip(values) {
        let at = address as usize;
        if at < ram.len() {
            ram[at] = value;
        }
    }
}

// The first `count` calls; they give `play`'s answer as it is, since a copy of the voices would take time.
// Kept as it is: a turn of the loop goes a whole run on, whose end it finds, so there is no range or chain to go over.
fn play_runs(
    core: Core,
    version: SguVersion,
    count: usize,
    kinds: &[u8],
    addresses: &[u32],
    values: &mut [u8],
    ram: &mut [u8],
    queues: &mut [i16],
    stems: &mut [i16],
) -> Option<Played>
    requires fact_1 { length queues.old ≡ queue_buffer }
    requires fact_2 { accepts_core core version (length ram.old) ≡ true }
    requires fact_3 { (count ≤ length kinds.now) × (count ≤ length addresses.now) × (count ≤ length values.old) }
    requires fact_4 { stems_per_frame * frames_asked kinds.now addresses.now 0 count ≤ length stems.old }
    ensures result { result ≡ after_list (listed kinds.now addresses.now 0 4 0 count
        (lent_list core version ram.old queues.old values.old)) }
    ensures left { LeftBy (listed kinds.now addresses.now 0 4 0 count
        (lent_list core version ram.old queues.old values.old))
        0 stems.old ram.new queues.new values.new stems.new }
    ensures each_accepted { EachAccepted kinds.now addresses.now 0 4 0 count
        (lent_list core version ram.old queues.old values.old) }
    ensures ram_value { AcceptedAfter (listed kinds.now addresses.now 0 4 0 count
        (lent_list core version ram.old queues.old values.old)) (length ram.old) }
{
    let mut core = core;
    let mut version = version;
    let mut i: usize = 0;
    let mut at: usize = 0;
    while i < count {
        let end = run_end(kinds, i, count, true);
        if i < end {
            store_bytes(&mut *ram, &addresses[i..end], &values[i..end]);
            core = core.after_ram_writes(ram.len(), &addresses[i..end]);
        }
        let to = run_end(kinds, end, count, false);
        let p = play_calls(
            core,
            version,
            0,
            4,
            0,
            kinds,
            addresses,
            &mut *values,
            end,
            to,
            &*ram,
            &mut *queues,
            &mut *stems,
            at,
        );
        let next = p.core;
        core = next;
        version = p.version;
        at = p.at;
        i = to;
    }
    Some(Played { core, version })
}

// A list of calls, one after the other: as many as there are kinds, addresses and values. A list that asks for something else
// than it is lent is not played.
// Kept as it is: each parameter is lent for reading or for writing by itself, so the types say that a list's kinds and addresses
// stay; a struct of them would need a clause for that in each function.
pub fn play(
    core: Core,
    version: SguVersion,
    kinds: &[u8],
    addresses: &[u32],
    values: &mut [u8],
    ram: &mut [u8],
    queues: &mut [i16],
    stems: &mut [i16],
) -> Option<Played>
    ensures result { result ≡ play_answer kinds.now addresses.now (length stems.old)
        (lent_list core version ram.old queues.old values.old) }
    ensures left { LeftBy (played_of kinds.now addresses.now (length stems.old)
        (lent_list core version ram.old queues.old values.old))
        0 stems.old ram.new queues.new values.new stems.new }
    ensures each_accepted { may_play kinds.now addresses.now (length stems.old)
        (lent_list core version ram.old queues.old values.old) ≡ true
        → EachAccepted kinds.now addresses.now 0 4 0
        (call_count kinds.now addresses.now values.old)
        (lent_list core version ram.old queues.old values.old) }
    ensures ram_value { accepts_core core version (length ram.old) ≡ true
        → AcceptedAfter (played_of kinds.now addresses.now (length stems.old)
        (lent_list core version ram.old queues.old values.old)) (length ram.old) }
{
    if !may_run(core, version, &*ram, &*queues, 4) {
        return None;
    }
    if !fills(kinds, addresses, &*values, stems.len()) {
        return None;
    }
    let count = call_count(kinds, addresses, &*values);
    play_runs(
        core, version, count, kinds, addresses, values, ram, queues, stems,
    )
}
