// Why a state is not read: `bad`, the refusal's number and its value, each behind a comma.
ghost use Rattle.std.specs.Prelude.{[], ◌∷◌};
ghost use Rattle.output.specs.Output.{Puts};
ghost use Rattle.session.specs.Answers.{refusal_numbers, numbers_of};
ghost use Rattle.log_state.specs.Refusals.{refusal_line};

use decimal::put_line;
use output::Output;
use session::LineRefusal;

// Only a malformed line, whose number is 16, has a value: the field at fault.
fn put_reason(refusal: LineRefusal, out: &mut Output<'_>)
    ensures { Puts out.old out.new (refusal_line (refusal_numbers refusal)) }
{
    match refusal.field() {
        Some(field) => put_line(out, b"bad,16,", field as u64),
        None => put_line(out, b"bad,", refusal.number() as u64),
    }
}

// Puts why a line was not written or read, as far as there is room. An answer that is no refusal puts nothing.
// Kept as it is: each answer is taken, and a `LineRefusal` alone would ask more of callers.
pub fn put_refusal<T: Copy>(answer: Result<T, LineRefusal>, out: &mut Output<'_>)
    ensures { Puts out.old out.new (refusal_line (numbers_of answer)) }
{
    match answer {
        Ok(_) => out.put_bytes(b""),
        Err(refusal) => put_reason(refusal, out),
    }
}

// Puts that the RAM's bytes are too few.
pub fn put_short(out: &mut Output<'_>)
    ensures { Puts out.old out.new (refusal_line (1 ∷ [])) }
{
    out.put_bytes(b"bad,1\n");
}
