// White space of UTF-8 text: the characters that Unicode calls so, by their bytes.
ghost use Rattle.std.specs.Prelude.{◌≡◌, ◌+◌, ◌-◌, ◌<◌, ◌^◌, take, drop};
ghost use Rattle.version.specs.Spaces.{among as among_in, space_width, one_byte_at, two_bytes_at, three_bytes_at, leading as leading_of};
ghost use Rattle.version.specs.Spaces.{trailing as trailing_of, trim_start, trim_end};

// The characters of one, two and three bytes; the first byte is the highest.
const ONE: [u32; 6] = [0x09, 0x0A, 0x0B, 0x0C, 0x0D, 0x20];

const TWO: [u32; 2] = [0xC285, 0xC2A0];

const THREE: [u32; 17] = [
    0xE1_9A80, 0xE2_8080, 0xE2_8081, 0xE2_8082, 0xE2_8083, 0xE2_8084, 0xE2_8085, 0xE2_8086,
    0xE2_8087, 0xE2_8088, 0xE2_8089, 0xE2_808A, 0xE2_80A8, 0xE2_80A9, 0xE2_80AF, 0xE2_819F,
    0xE3_8080,
];

fn among(n: u32, table: &[u32]) -> bool
    ensures { result ≡ among_in n table.now }
{
    table.contains(&n)
}

// The bytes of a white space, by the numbers that one, two and three bytes make: 0 where there is none.
fn space_width(one: u32, two: u32, three: u32) -> usize
    ensures { result ≡ space_width one two three }
{
    if among(one, &ONE) {
        return 1;
    }
    if among(two, &TWO) {
        return 2;
    }
    if among(three, &THREE) {
        return 3;
    }
    0
}

// The number that one, two or three bytes make, 0 past the end.
fn one_at(s: &[u8], at: usize) -> u32
    ensures { (result ≡ one_byte_at s.now at) × (result < 2 ^ 8) }
{
    num::byte_at(s, at) as u32
}

fn two_at(s: &[u8], at: usize) -> u32
    requires { at + 1 < 2 ^ 64 }
    ensures { (result ≡ two_bytes_at s.now at) × (result < 2 ^ 16) }
{
    one_at(s, at) * 256 + one_at(s, at + 1)
}

fn three_at(s: &[u8], at: usize) -> u32
    requires { at + 2 < 2 ^ 64 }
    ensures { result ≡ three_bytes_at s.now at }
{
    two_at(s, at) * 256 + one_at(s, at + 2)
}

// The bytes of the white space that a text begins with, and of that which it ends with.
fn leading(s: &[u8]) -> usize
    ensures { result ≡ leading_of s.now }
{
    space_width(one_at(s, 0), two_at(s, 0), three_at(s, 0))
}

fn trailing(s: &[u8]) -> usize
    ensures { result ≡ trailing_of s.now }
{
    let n = s.len();
    space_width(
        one_at(s, n.saturating_sub(1)),
        two_at(s, n.saturating_sub(2)),
        three_at(s, n.saturating_sub(3)),
    )
}

// Where a text begins and ends without the white space about it.
// Kept as it is: with a closure for both ends the contract of the one function needs a definition of its own, which is longer than this loop.
pub(crate) fn text_start(s: &[u8]) -> usize
    ensures { drop result s.now ≡ trim_start s.now }
{
    let n = s.len();
    let mut rest = n;
    for _turn in 0..n {
        let w = leading(num::tail(s, n - rest));
        if w == 0 {
            return n - rest;
        }
        rest = rest.saturating_sub(w);
    }
    n - rest
}

pub(crate) fn text_end(s: &[u8]) -> usize
    ensures { take result s.now ≡ trim_end s.now }
{
    let n = s.len();
    let mut rest = n;
    for _turn in 0..n {
        let w = trailing(num::part(s, 0, rest));
        if w == 0 {
            return rest;
        }
        rest = rest.saturating_sub(w);
    }
    rest
}
