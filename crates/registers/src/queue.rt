// The queue of a FIFO voice: a ring over the voice's own entries, and the sample that is held.
ghost use Rattle.std.specs.Prelude.{◌≡◌};
ghost use Rattle.registers.specs.Queue.{pushed, pushed_entries, popped, advanced, ticked};
ghost use Rattle.registers.specs.Queue.{is_quiet, allows_fifo, kept_fifo, accepts_fifo};

use crate::Fifo;
use sizes::FIFO_CAPACITY;
use version::SguVersion;

impl Fifo {
    // A sample is added at the end; a full queue drops it.
    pub fn push(mut self, queue: &mut [i16], sample: i16) -> Fifo
        ensures { (result ≡ pushed self) × (queue.new ≡ pushed_entries self queue.old sample) }
    {
        let count = self.count;
        if count < FIFO_CAPACITY {
            let at = ((self.head & 2047) + count) & 2047;
            if at < queue.len() {
                queue[at] = sample;
            }
            self.count = count + 1;
        }
        self
    }

    // The oldest sample is taken and held, if there is one.
    pub fn pop(mut self, queue: &mut [i16], frequency: u16) -> Fifo
        ensures result { result ≡ popped self queue.old frequency }
        ensures queue { queue.new ≡ queue.old }
    {
        let count = self.count;
        if count == 0 {
            return self;
        }
        let head = self.head & 2047;
        let sample = if head < queue.len() { queue[head] } else { 0 };
        self.held = sample;
        self.hold = frequency as u32;
        self.count = count - 1;
        self.head = (head + 1) & 2047;
        self
    }

    // The first tick of a frame: a new sample once the held one has lasted.
    pub fn advance(mut self, queue: &mut [i16], frequency: u16) -> Fifo
        ensures result { result ≡ advanced self queue.old frequency }
        ensures queue { queue.new ≡ queue.old }
    {
        let hold = self.hold;
        if hold == 0 {
            return self.pop(queue, frequency);
        }
        self.hold = hold - 1;
        self
    }

    // A tick: four are a frame, and the first of them may take a new sample.
    pub fn tick(self, queue: &mut [i16], frequency: u16) -> Fifo
        ensures result { result ≡ ticked self queue.old frequency }
        ensures queue { queue.new ≡ queue.old }
    {
        let sub = self.sub;
        let mut f = self;
        if sub == 0 {
            f = self.advance(queue, frequency);
        }
        f.sub = ((sub & 3) + 1) & 3;
        f
    }

    // Whether nothing was pushed, held or latched.
    #[tactic(auto, unfolding(crate::specs::Queue::is_quiet))]
    pub fn is_quiet(self) -> bool
        ensures { result ≡ is_quiet self }
    {
        (self.held == 0)
            & (self.hold == 0)
            & (self.sub == 0)
            & (self.latch == 0)
            & (self.count == 0)
    }

    // Whether a version has such a queue: V1 and V2 have no FIFO, so nothing may be in it.
    #[tactic(auto, unfolding(crate::specs::Queue::allows_fifo))]
    pub fn is_allowed(self, version: SguVersion) -> bool
        ensures { result ≡ allows_fifo version self }
    {
        version.has_3ws8pna() || self.is_quiet()
    }

    // What a version keeps of a queue that was stored.
    #[tactic(auto, unfolding(crate::specs::Queue::kept_fifo))]
    pub fn kept(self, version: SguVersion) -> Fifo
        ensures { result ≡ kept_fifo version self }
    {
        if self.is_allowed(version) {
            self
        } else {
            Fifo::default()
        }
    }

    // Whether the queue is that of an accepted state.
    #[tactic(auto, unfolding(crate::specs::Queue::accepts_fifo, crate::specs::Queue::ranges_fifo))]
    pub fn accepts(self, version: SguVersion) -> bool
        ensures { result ≡ accepts_fifo version self }
    {
        (self.count <= FIFO_CAPACITY)
            & (self.head < FIFO_CAPACITY)
            & (self.sub <= 3)
            & (self.hold <= 65535)
            & self.is_allowed(version)
    }
}
