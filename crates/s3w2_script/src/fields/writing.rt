// An answer's fields, each after a comma, and samples as numbers.
use crate::fields::Figures;
use output::Output;

// A number in two's complement.
pub(crate) fn bits(x: i32) -> u64 {
    (x as i64).cast_unsigned()
}

pub(crate) fn sample_bits(x: i16) -> u64 {
    bits(x as i32)
}

// Puts a number that is not negative.
pub(crate) fn put(out: &mut Output<'_>, n: u64) {
    out.put_byte(44);
    decimal::put_natural(out, n);
}

// Puts any number, which is told in two's complement.
fn put_number(out: &mut Output<'_>, n: u64) {
    out.put_byte(44);
    decimal::put_number(out, n.cast_signed());
}

pub(crate) fn put_numbers(out: &mut Output<'_>, numbers: &[u64]) {
    for &n in numbers {
        put_number(&mut *out, n);
    }
}

// Puts an answer's numbers.
pub(crate) fn put_figures(out: &mut Output<'_>, figures: Figures) {
    match figures {
        Figures::Nothing => {}
        Figures::One(n) => put_number(out, n),
        Figures::Two(n, m) => {
            put_number(&mut *out, n);
            put_number(out, m);
        }
    }
}

// Puts the number of a refusal, behind its word.
pub(crate) fn put_refused(out: &mut Output<'_>, number: u8) {
    out.put_bytes(b",no");
    put(out, number as u64);
}

pub(crate) fn put_samples(out: &mut Output<'_>, samples: &[i16]) {
    for &x in samples {
        put_number(&mut *out, sample_bits(x));
    }
}

pub(crate) fn put_bytes(out: &mut Output<'_>, bytes: &[u8]) {
    for &x in bytes {
        put(&mut *out, x as u64);
    }
}
