// Why a call is turned away, in the order of docs/SPECIFICATION.md, section 12: RAM length, queue buffer, state, stem buffer.
ghost use Rattle.std.specs.Prelude.{◌≡◌, eqb, ◌*◌, get_or};
ghost use Rattle.cores.specs.Sizes.{chip_stems};
ghost use Rattle.s3w2.specs.Answers.{is_done, number_of, refusal_number};
ghost use Rattle.s3w2.specs.Refusals.{accepts_chip, own_refusal, ram_refusal, queues_refusal, sound_refusal, clock_refusal};

use crate::{Answer, Chip, Refusal, Returned};
use cores::CHIP_QUEUES;
use sizes::RAM_MOST;

// Whether a call was carried out that returns nothing.
pub fn is_done(answer: Answer) -> bool
    ensures { result ≡ is_done answer }
{
    matches!(answer, Ok(Returned::Done))
}

// The number of a refusal (docs/SPECIFICATION.md, section 12); 0 where it is none.
pub fn number(answer: Answer) -> u8
    ensures { result ≡ get_or (number_of answer) 0 0 }
{
    match answer {
        Ok(_) => 0,
        Err(refusal) => refusal.number(),
    }
}

// Whether a stem buffer has 32 entries a frame.
fn is_stem_buffer(length: usize, frames: usize) -> bool
    ensures { result ≡ eqb length (chip_stems * frames) }
{
    if length % 32 != 0 {
        return false;
    }
    length / 32 == frames
}

impl Refusal {
    // Its number (docs/SPECIFICATION.md, section 12).
    pub fn number(self) -> u8
        ensures { result ≡ refusal_number self }
    {
        match self {
            Refusal::RamLength => 1,
            Refusal::QueueBuffer => 2,
            Refusal::NotAccepted => 3,
            Refusal::StemBuffer => 14,
        }
    }
}

impl Chip {
    // Whether the state is accepted over a RAM of a length: all sixteen voices, in every version.
    pub fn accepts(self, length: usize) -> bool
        ensures { result ≡ accepts_chip self length }
    {
        let version = self.version;
        let first = self.core_at(0);
        if !first.accepts(version, length) {
            return false;
        }
        let second = self.core_at(1);
        second.accepts(version, length)
    }

    // A call that is lent neither RAM nor queues. No address of an accepted state is past the largest RAM, so its length
    // stands for a RAM that is not lent.
    #[tactic(auto, unfolding(crate::specs::Refusals::refusal))]
    pub fn refusal(self) -> Result<(), Refusal>
        ensures { result ≡ own_refusal self }
    {
        if !self.accepts(RAM_MOST) {
            return Err(Refusal::NotAccepted);
        }
        Ok(())
    }

    // A call that is lent the RAM.
    #[tactic(auto, unfolding(crate::specs::Refusals::refusal))]
    pub fn refusal_with_ram(self, length: usize) -> Result<(), Refusal>
        ensures { result ≡ ram_refusal self length }
    {
        if !tone::is_ram_length(length) {
            return Err(Refusal::RamLength);
        }
        if !self.accepts(length) {
            return Err(Refusal::NotAccepted);
        }
        Ok(())
    }

    // A call that is lent the queue buffer.
    #[tactic(auto, unfolding(crate::specs::Refusals::refusal))]
    pub fn refusal_with_queues(self, queues: usize) -> Result<(), Refusal>
        ensures { result ≡ queues_refusal self queues }
    {
        if queues != CHIP_QUEUES {
            return Err(Refusal::QueueBuffer);
        }
        self.refusal()
    }

    // The refusal of a call that is lent both.
    #[tactic(auto, unfolding(crate::specs::Refusals::refusal))]
    pub fn refusal_of_sound(self, length: usize, queues: usize) -> Result<(), Refusal>
        ensures { result ≡ sound_refusal self length queues }
    {
        if !tone::is_ram_length(length) {
            return Err(Refusal::RamLength);
        }
        if queues != CHIP_QUEUES {
            return Err(Refusal::QueueBuffer);
        }
        if !self.accepts(length) {
            return Err(Refusal::NotAccepted);
        }
        Ok(())
    }

    // A call that is lent stems too.
    pub fn refusal_of_clock(
        self,
        length: usize,
        queues: usize,
        frames: usize,
        stems: usize,
    ) -> Result<(), Refusal>
        ensures { result ≡ clock_refusal self length queues frames stems }
    {
        self.refusal_of_sound(length, queues)?;
        if !is_stem_buffer(stems, frames) {
            return Err(Refusal::StemBuffer);
        }
        Ok(())
    }
}
