// sqv4_make: makes a mono SQV4 file of version 3. Standard input has a first line `variant,rate,volume,index` and then a line for each sample.
// The file goes to standard output; or `refused` and the number (docs/SPECIFICATION.md, section 12), or `bad`, the number of the first line
// that is no such line, 17.
#![tactic(auto)]

ghost use Rattle.std.specs.Prelude.{◌≡◌, length};
ghost use Rattle.sqv4_make.specs.Making.{most_samples};

mod lines;
mod making;
mod moving;

use sqv4_writer::Terms;

// The input as far as it was read: the bytes of the line that is not ended yet, the whole lines before it, what the first of them
// says, and whether all were such lines.
// Kept as it is: there is no heap, and of an ArrayVec only its items are known, so the definitions could not give the whole state.
#[derive(Clone, Copy)]
pub(crate) struct Progress {
    pub line: [u8; 20],
    pub filled: usize,
    pub lines: u64,
    pub terms: Option<Terms>,
    // Kept as it is: the other fields count where it is false too, for `lines` says which line is bad.
    pub good: bool,
}

// Room for the file.
fn with_samples(rt: &HostRuntime, samples: &mut [i16])
    requires { length samples.old ≡ most_samples }
{
    let mut file = [0u8; 1048576];
    let mut input = io::large_buffer();
    moving::run(rt, &mut input, samples, &mut file);
}

// Room for the samples of the longest file: 40,329 fragments of 26 bytes, with 63 samples in each.
fn main(rt: HostRuntime) {
    let mut samples = [0i16; 2540727];
    with_samples(&rt, &mut samples);
}
