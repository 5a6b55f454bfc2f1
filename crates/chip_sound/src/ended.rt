// Which voices of both cores are active, and which were and are so no more.
ghost use Rattle.std.specs.Prelude.{◌≡◌, ◌+◌, ◌*◌};
ghost use Rattle.voices.specs.Actives.{Actives, ended_since};
ghost use Rattle.s3w2.specs.declared.Returned.TheVariants.{Ended};
ghost use Rattle.s3w2.specs.Chips.{core_at};

use crate::Flags;
use s3w2::{Chip, Returned};

pub(crate) fn flags(chip: Chip) -> Flags
    ensures first { Actives (core_at chip 0).channels result.first }
    ensures second { Actives (core_at chip 1).channels result.second }
{
    let a = chip.core_at(0);
    let b = chip.core_at(1);
    let low = a.channels;
    let high = b.channels;
    let first = voices::actives(low);
    let second = voices::actives(high);
    Flags { first, second }
}

// Core 0's are the low eight bits.
pub(crate) fn ended_since(chip: Chip, was: Flags) -> Returned
    ensures { result ≡ Ended (ended_since was.first (core_at chip 0).channels + 256 * ended_since was.second (core_at chip 1).channels) }
{
    let a = chip.core_at(0);
    let b = chip.core_at(1);
    let low = a.channels;
    let high = b.channels;
    let first = was.first;
    let second = was.second;
    let set = voices::ended(first, low) as u16;
    let others = voices::ended(second, high) as u16;
    Returned::Ended(set + 256 * others)
}
