// How loud some frames are: of a side its largest value, the sum of its squares and how often it is over; of a voice its largest sample.
#![tactic(auto)]

ghost use Rattle.std.specs.Prelude.{◌≡◌};
ghost use Rattle.levels.specs.Levels.{square_of, over_of, side_level, with_frames, voice_peak};

use sizes::{LAST_CHANNEL, STEMS};

// A side that is not clamped: its largest size, the sum of the squares of its values, and how many of them 16 bits do not hold.
#[derive(Clone, Copy)]
pub struct SideLevel {
    pub peak: u32,
    pub squares: u64,
    pub overs: u64,
}

// Of no frames.
impl Default for SideLevel {
    ghost is_default = { λ level. level ≡ side_level 0 0 0 };

    fn default() -> SideLevel {
        SideLevel {
            peak: 0,
            squares: 0,
            overs: 0,
        }
    }
}

impl SideLevel {
    // With more frames. The sums wrap.
    pub fn with_frames(self, side: &[i32]) -> SideLevel
        ensures { result ≡ with_frames self side.now }
    {
        let mut squares = self.squares;
        let mut overs = self.overs;
        for &x in side {
            squares = squares.wrapping_add(square(x));
            overs = overs.wrapping_add(over(x));
        }
        SideLevel {
            peak: log_lines::peak(self.peak, side),
            squares,
            overs,
        }
    }
}

fn square(x: i32) -> u64
    ensures { result ≡ square_of x }
{
    let size = x.unsigned_abs() as u64;
    size * size
}

// 1 where 16 bits do not hold a value.
fn over(x: i32) -> u64
    ensures { result ≡ over_of x }
{
    u64::from(i16::try_from(x).is_err())
}

// The largest of a number and the sizes of a channel's stems, of which each frame has 16; there is no channel above 7.
pub fn voice_peak(before: u32, stems: &[i16], channel: usize) -> u32
    ensures { result ≡ voice_peak before stems.now channel }
{
    if LAST_CHANNEL < channel {
        return before;
    }
    let mut largest = before;
    for frame in stems.chunks_exact(STEMS) {
        largest = largest.max(frame[2 * channel].unsigned_abs() as u32);
        largest = largest.max(frame[2 * channel + 1].unsigned_abs() as u32);
    }
    largest
}
