// The call: what it refuses, in the order of docs/SPECIFICATION.md, section 12, and the file.
ghost use Rattle.std.specs.Prelude.{◌≡◌, length, ◌≤◌, get_or};
ghost use Rattle.std.proofs.lemmas.List.Edits.{sets};
ghost use Rattle.sqv4_writer.specs.Streams.{out_of_terms, length_for, answer_for, written_into, file_of, error_number, number_of, max_samples};

use crate::fragments::{fragment_count, put_fragments, put_header};
use crate::{HEADER_SIZE, MAX_SAMPLES, MAX_STEP_INDEX, StreamError, Terms};
use adpcm::Variant;
use output::Output;

fn out_of_terms(samples: usize, terms: Terms) -> bool
    ensures { result ≡ out_of_terms samples terms.rate terms.volume terms.index }
{
    if terms.rate == 0 {
        return true;
    }
    if terms.volume == 0 {
        return true;
    }
    if MAX_STEP_INDEX < terms.index {
        return true;
    }
    MAX_SAMPLES < samples
}

fn file_length(variant: Variant, samples: usize) -> usize
    requires { samples ≤ max_samples }
    ensures { result ≡ length_for variant samples }
{
    fragment_count(samples) * variant.fragment_size() + HEADER_SIZE
}

// What the call below answers for a number of samples and a buffer of `room` bytes.
pub fn answer_for(samples: usize, terms: Terms, room: usize) -> Result<usize, StreamError>
    ensures { result ≡ answer_for samples terms.variant terms.rate terms.volume terms.index room }
{
    if out_of_terms(samples, terms) {
        return Err(StreamError::OutOfTerms);
    }
    let length = file_length(terms.variant, samples);
    if room < length {
        return Err(StreamError::OutputBuffer);
    }
    Ok(length)
}

// The file itself.
fn write_file(samples: &[i16], terms: Terms, out: &mut [u8])
    requires { length samples.now ≤ max_samples }
    ensures { out.new ≡ sets out.old 0 (file_of samples.now terms.variant terms.rate terms.volume terms.index) }
{
    let mut file = Output { buffer: out, at: 0 };
    put_header(&mut file, terms.variant, terms.rate, samples.len() as u32);
    put_fragments(&mut file, samples, terms);
}

// Writes the file of some samples into `out`, and what stands past it stays, and answers its length. A call that is turned away writes nothing.
pub fn write_stream(samples: &[i16], terms: Terms, out: &mut [u8]) -> Result<usize, StreamError>
    ensures result { result
        ≡ answer_for (length samples.now) terms.variant terms.rate terms.volume terms.index (length out.old) }
    ensures out { out.new
        ≡ written_into out.old (file_of samples.now terms.variant terms.rate terms.volume terms.index) result }
{
    let length = answer_for(samples.len(), terms, out.len())?;
    write_file(samples, terms, out);
    Ok(length)
}

// The number of a refusal (docs/SPECIFICATION.md, section 12); 0 where it is none.
pub fn number(answer: Result<usize, StreamError>) -> u8
    ensures { result ≡ get_or (number_of answer) 0 0 }
{
    match answer {
        Ok(_) => 0,
        Err(error) => error.number(),
    }
}

impl StreamError {
    // The number of a refusal (docs/SPECIFICATION.md, section 12).
    pub fn number(self) -> u8
        ensures { result ≡ error_number self }
    {
        match self {
            StreamError::OutOfTerms => 20,
            StreamError::OutputBuffer => 21,
        }
    }
}
