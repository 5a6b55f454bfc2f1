// Chips made, reset, and under another version.
ghost use Rattle.std.specs.Prelude.{◌≡◌, ◌<◌, min, length};
ghost use Rattle.cores.specs.Sizes.{num_cores};
ghost use Rattle.version.specs.declared.SguVersion.TheVariants.{V3_1};
ghost use Rattle.s3w2.specs.Fresh.{made_called, made_ram, set_version_called, reset_called, reset_ram, reset_channel_called};
ghost use Rattle.s3w2.specs.Chips.{core_at, with_core_at, with_cores, zeroed};
ghost use Rattle.s3w2.specs.Answers.{answered};

use crate::{Answer, Called, Chip, Refusal, Returned};
use cores::LAST_CORE;
use version::SguVersion;
use voices::Core;

fn zero(ram: &mut [u8])
    ensures { ram.new ≡ zeroed ram.old }
{
    ram.fill(0);
}

impl Chip {
    // What a call leaves and answers.
    pub fn answers(self, answer: Answer) -> Called
        ensures { result ≡ answered self answer }
    {
        Called { chip: self, answer }
    }

    // Core 0, or core 1 for any other number.
    pub fn core_at(self, k: usize) -> Core
        ensures { result ≡ core_at self (min k 1) }
    {
        let cores = self.cores;
        cores[k.min(LAST_CORE)]
    }

    // The chip with another core 0 or 1.
    pub(crate) fn with_core(mut self, k: usize, core: Core, answer: Answer) -> Called
        requires { k < num_cores }
        ensures { result ≡ answered (with_core_at self k core) answer }
    {
        self.cores[k] = core;
        Called { chip: self, answer }
    }

    // The chip with other cores.
    pub fn with_cores(self, first: Core, second: Core) -> Chip
        ensures { result ≡ with_cores self first second }
    {
        let version = self.version;
        Chip {
            version,
            cores: [first, second],
        }
    }

    // A fresh chip; its RAM is zeroed.
    pub fn with_version(ram: &mut [u8], version: SguVersion) -> Called
        ensures called { result ≡ made_called (length ram.old) version }
        ensures ram { ram.new ≡ made_ram ram.old }
    {
        let chip = Chip {
            version,
            cores: [Core::default(), Core::default()],
        };
        if !tone::is_ram_length(ram.len()) {
            return chip.answers(Err(Refusal::RamLength));
        }
        zero(ram);
        chip.answers(Ok(Returned::Done))
    }

    // A fresh V3.1 chip over a lent RAM.
    pub fn with_pcm_ram(ram: &mut [u8]) -> Called
        ensures called { result ≡ made_called (length ram.old) V3_1 }
        ensures ram { ram.new ≡ made_ram ram.old }
    {
        Chip::with_version(ram, SguVersion::V3_1)
    }

    // A fresh V3.1 chip.
    pub fn new(ram: &mut [u8]) -> Called
        ensures called { result ≡ made_called (length ram.old) V3_1 }
        ensures ram { ram.new ≡ made_ram ram.old }
    {
        Chip::with_pcm_ram(ram)
    }

    // The chip under another version: caches and queues are empty.
    pub fn set_version(self, version: SguVersion) -> Called
        ensures { result ≡ set_version_called self version }
    {
        if let Err(refusal) = self.refusal() {
            return self.answers(Err(refusal));
        }
        let first = self.core_at(0);
        let second = self.core_at(1);
        let chip = Chip {
            version,
            cores: [first.set_version(version), second.set_version(version)],
        };
        chip.answers(Ok(Returned::Done))
    }

    // A fresh chip of the same version; the RAM is zeroed.
    pub fn reset(self, ram: &mut [u8]) -> Called
        ensures called { result ≡ reset_called self (length ram.old) }
        ensures ram { ram.new ≡ reset_ram self ram.old }
    {
        if let Err(refusal) = self.refusal_with_ram(ram.len()) {
            return self.answers(Err(refusal));
        }
        zero(ram);
        let chip = self.with_cores(Core::default(), Core::default());
        chip.answers(Ok(Returned::Done))
    }

    // A channel above 7 is none, and so is a core above 1.
    pub fn reset_channel(self, core: usize, ch: usize) -> Called
        ensures { result ≡ reset_channel_called self core ch }
    {
        if let Err(refusal) = self.refusal() {
            return self.answers(Err(refusal));
        }
        if LAST_CORE < core {
            return self.answers(Ok(Returned::Done));
        }
        let voices = self.core_at(core);
        self.with_core(core, voices.reset_channel(ch), Ok(Returned::Done))
    }
}
