// The fields of a voice line, counted from 0.
ghost use Rattle.std.specs.Prelude.{◌≡◌, get_or, set};
ghost use Rattle.line_fields.specs.Table.{is_sample, most_of, sample_of_number};

use cores::CHIP_VOICES;
use sizes::FIFO_CAPACITY;

// The greatest number of each of the first 25 fields.
const MOST: [u64; 25] = [
    CHIP_VOICES as u64 - 1,
    0xFFFF,
    5,
    0xFF,
    0xFF,
    6,
    7,
    1,
    0xFFFF,
    0xFFFF,
    0xFF_FFFF,
    0xFF_FFFF,
    0xFF_FFFF,
    0xFF,
    7,
    1,
    0xFFFF_FFFF_FFFF_FFFF,
    0x7_FFFF_FFFF,
    0xFFFF_FFFF,
    0xFFFF,
    65280,
    0xFFFF,
    0xFFFF,
    3,
    0xFF,
];

// Whether a field is written with a sign.
#[tactic(auto, unfolding(crate::specs::Table::is_sample))]
pub(crate) fn is_sample(k: usize) -> bool
    ensures { result ≡ is_sample k }
{
    k == 19 || k == 21 || 282 <= k
}

// The greatest number of a field; `fifo`: the version has FIFO voices.
pub(crate) fn most(fifo: bool, k: usize) -> u64
    ensures { result ≡ most_of fifo k }
{
    if k == 2 {
        if fifo {
            return 5;
        }
        return 4;
    }
    if k < 25 {
        return MOST[k];
    }
    if k < 281 {
        return 255;
    }
    if k == 281 {
        FIFO_CAPACITY as u64
    } else {
        65535
    }
}

// The sample of a number.
pub fn sample(number: u64) -> i16
    ensures { result ≡ sample_of_number number }
{
    num::signed16((number % 65536) as u16)
}

// Numbers of a buffer: one past its end is 0, and is not stored.
pub fn number_at(numbers: &[u64], k: usize) -> u64
    ensures { result ≡ get_or numbers.now k 0 }
{
    numbers.get(k).copied().unwrap_or(0)
}

// Puts a field's number at its place, if there is one.
pub fn put_number(numbers: &mut [u64], k: usize, number: u64)
    ensures { numbers.new ≡ set numbers.old k number }
{
    if k < numbers.len() {
        numbers[k] = number;
    }
}
