// Decimal text: plain decimal without leading zeros, a minus sign only before a negative number.
#![tactic(auto)]

ghost use Rattle.std.specs.Prelude.{◌≡◌, [], ◌∷◌, ◌++◌, length};
ghost use Rattle.output.specs.Output.{Puts};
ghost use Rattle.decimal.specs.Written.{decimal, render};
ghost use Rattle.decimal.specs.Read.{digit_at, spelled_at, natural_at, number_at, negative, positive};

use output::Output;

// What reading a numeral finds: its value and the place behind it.
// Kept as it is: readers take a text and a place in it, and give a place of the same text, which their callers compare and go on from.
pub type Numeral<T> = Option<(T, usize)>;

// Puts n's numeral.
pub fn put_natural(out: &mut Output<'_>, n: u64)
    ensures { Puts out.old out.new (decimal n) }
{
    if 10 <= n {
        put_natural(&mut *out, n / 10);
    }
    out.put_byte(48 + ((n % 10) as u8));
}

// Puts a word, n's numeral and byte 10.
pub fn put_line(out: &mut Output<'_>, word: &[u8], n: u64)
    ensures { Puts out.old out.new (word.now ++ (decimal n ++ (10 ∷ []))) }
{
    out.put_bytes(word);
    put_natural(&mut *out, n);
    out.put_byte(10);
}

// How many bytes n's numeral has.
pub fn natural_width(n: u64) -> usize
    ensures { result ≡ length (decimal n) }
{
    let mut rest = n;
    let mut width = 1;
    // Kept as it is: no index is counted here, and an iterator of the quotients would be longer.
    while 10 <= rest {
        rest /= 10;
        width += 1;
    }
    width
}

// Puts a number's numeral.
pub fn put_number(out: &mut Output<'_>, value: i64)
    ensures { Puts out.old out.new (render value) }
{
    if value < 0 {
        out.put_byte(45);
    }
    put_natural(out, value.unsigned_abs());
}

// How many bytes a number's numeral has.
pub fn number_width(value: i64) -> usize
    ensures { result ≡ length (render value) }
{
    let width = natural_width(value.unsigned_abs());
    if value < 0 { width + 1 } else { width }
}

// Whether a digit stands at i.
fn digit_at(text: &[u8], i: usize) -> bool
    ensures { result ≡ digit_at text.now i }
{
    num::byte_at(text, i).is_ascii_digit()
}

// The number that the digits from `at` on spell.
fn take_digits(text: &[u8], at: usize) -> Numeral<u64>
    ensures { result ≡ spelled_at 0 text.now at }
{
    let mut value: u64 = 0;
    let mut i = at;
    // Kept as it is: a `for` up to the text's end would have two exits with the same answer, and this has one.
    while digit_at(text, i) {
        let d = (text[i] - 48) as u64;
        value = value.checked_mul(10)?.checked_add(d)?;
        i += 1;
    }
    Some((value, i))
}

// The numeral without a sign at `at`: all digits that stand there, none of them a 0 before others, and below 2^64.
pub fn take_natural(text: &[u8], at: usize) -> Numeral<u64>
    ensures { result ≡ natural_at text.now at }
{
    if !digit_at(text, at) {
        return None;
    }
    if text[at] == 48 {
        if digit_at(text, at + 1) {
            return None;
        }
        return Some((0, at + 1));
    }
    take_digits(text, at)
}

// A numeral with a minus sign before it: a number from -2^63 to -1.
fn negated(size: Numeral<u64>) -> Numeral<i64>
    ensures { result ≡ negative size }
{
    let (value, next) = size?;
    if value == 0 {
        return None;
    }
    if 0x8000_0000_0000_0000 < value {
        return None;
    }
    Some((-1 - ((value - 1) as i64), next))
}

// A numeral with no sign before it: a number below 2^63.
fn unsigned(size: Numeral<u64>) -> Numeral<i64>
    ensures { result ≡ positive size }
{
    let (value, next) = size?;
    Some((i64::try_from(value).ok()?, next))
}

// The numeral at `at`, of a number that fits 64 bits with a sign. A minus sign stands only before a number other than 0.
pub fn take_number(text: &[u8], at: usize) -> Numeral<i64>
    ensures { result ≡ number_at text.now at }
{
    if num::byte_at(text, at) == 45 {
        return negated(take_natural(text, at + 1));
    }
    unsigned(take_natural(text, at))
}
