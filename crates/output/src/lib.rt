// A buffer that is filled from a place on, part by part.
#![tactic(auto)]

ghost use Rattle.std.specs.Prelude.{[], ◌∷◌};
ghost use Rattle.output.specs.Output.{Puts};

// `at` is the place behind what is written so far. What is past the buffer's end is not written, and `at` stays at that end.
#[derive(Drop)]
pub struct Output<'a> {
    pub buffer: &'a mut [u8],
    pub at: usize,
}

impl Output<'_> {
    pub fn put_byte(&mut self, byte: u8)
        ensures { Puts self.old self.new (byte ∷ []) }
    {
        if self.at < self.buffer.len() {
            self.buffer[self.at] = byte;
            self.at += 1;
        } else {
            self.at = self.buffer.len();
        }
    }

    pub fn put_bytes(&mut self, bytes: &[u8])
        ensures { Puts self.old self.new bytes.now }
    {
        let start = self.at.min(self.buffer.len());
        let count = bytes.len().min(self.buffer.len() - start);
        self.buffer[start..start + count].copy_from_slice(&bytes[..count]);
        self.at = start + count;
    }
}
