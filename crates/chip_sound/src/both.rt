// Frames of both cores.
ghost use Rattle.std.specs.Prelude.{◌≡◌, true, ◌*◌, ◌/◌, ◌%◌, ◌<◌, length};
ghost use Rattle.std.proofs.lemmas.List.Edits.{sets};
ghost use Rattle.sizes.specs.Sizes.{stems_per_frame};
ghost use Rattle.cores.specs.Sizes.{num_cores, chip_queues};
ghost use Rattle.cores.specs.Stems.{paired};
ghost use Rattle.voices.specs.Accepted.{accepts_core};
ghost use Rattle.chip_sound.specs.Both.{ran_of, second_sounds};

use cores::NUM_CORES;
use s3w2::Chip;
use sizes::{QUEUE_BUFFER, STEMS};
use version::SguVersion;
use voices::Core;

// Whether core 1 has to be ticked: the version has it, and it is not at rest.
pub(crate) fn second_sounds(chip: Chip) -> bool
    ensures { result ≡ second_sounds chip }
{
    let version = chip.version;
    if version.core_count() < NUM_CORES {
        return false;
    }
    !rest::rests(chip.core_at(1))
}

// Turns of core k, as many as its stems have room for; without room it is given back at once.
pub(crate) fn run_core(
    core: Core,
    version: SguVersion,
    ram: &[u8],
    queues: &mut [i16],
    k: usize,
    stems: &mut [i16],
) -> Core
    requires { (k < num_cores) × (length queues.old ≡ chip_queues) }
    ensures result { result ≡ (ran_of version ram.now queues.old k (length stems.old) core).core }
    ensures stems { stems.new
        ≡ sets stems.old 0 (ran_of version ram.now queues.old k (length stems.old) core).stems }
    ensures ram_value { accepts_core core version (length ram.now) ≡ true → accepts_core result version (length ram.now) ≡ true }
    ensures queues { queues.new ≡ queues.old }
{
    if stems.len() == 0 {
        return core;
    }
    let from = k * QUEUE_BUFFER;
    let to = from + QUEUE_BUFFER;
    frames::run(core, version, ram, &mut queues[from..to], 0, 4, stems)
}

// The stems of both cores, each frame's sixteen of the first and then its sixteen of the second.
pub(crate) fn pair(first: &[i16], second: &[i16], stems: &mut [i16])
    requires { (length first.now % stems_per_frame ≡ 0) × (length second.now ≡ length first.now) × (length stems.old ≡ 2 * length first.now) }
    ensures { stems.new ≡ paired (length first.now / stems_per_frame) first.now second.now }
{
    let frames = first.chunks_exact(STEMS).zip(second.chunks_exact(STEMS));
    for (n, (one, other)) in frames.enumerate() {
        let from = 2 * STEMS * n;
        let middle = from + STEMS;
        let to = middle + STEMS;
        stems[from..middle].copy_from_slice(one);
        stems[middle..to].copy_from_slice(other);
    }
}
