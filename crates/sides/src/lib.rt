// Frames of two cores' stems added to two sides.
#![tactic(auto)]

ghost use Rattle.std.specs.Prelude.{◌≡◌, ◌+◌, ◌*◌, ◌≤◌, ◌+ℤ◌, ℤ, pos, nat_abs, length};
ghost use Rattle.std.specs.Int.{w32};
ghost use Rattle.std.proofs.Common.{SFits};
ghost use Rattle.sizes.specs.Sizes.{num_channels, stems_per_frame};
ghost use Rattle.sides.specs.Sides.{side_sum, frames_in, saturating, wrapping, added, StemRoom};
ghost use Rattle.sides.specs.Sides.{side_of as side_at};

use sizes::STEMS;

// A number of a side: the silent one, and how a frame's sum is added to one.
pub trait SideNumber: Copy {
    ghost silent: { Self };

    ghost plus: { Self → ℤ → Self };

    fn with_frame(self, sum: i32) -> Self
        ensures { result ≡ plus self sum };
}

// The sum is clamped, then added, and saturates.
impl SideNumber for i16 {
    ghost silent = { pos 0 };

    ghost plus = { saturating };

    fn with_frame(self, sum: i32) -> i16 {
        tone::saturating_add(self, tone::saturate_output(sum))
    }
}

// The sum is added and wraps.
impl SideNumber for i32 {
    ghost silent = { pos 0 };

    ghost plus = { wrapping };

    fn with_frame(self, sum: i32) -> i32 {
        tone::wrapping_add(self, sum)
    }
}

// The sum of every second stem of a frame, from a place on.
fn sum_of(stems: &[i16], from: usize) -> i32
    requires { from + 15 ≤ length stems.now }
    ensures result { result ≡ side_sum num_channels stems.now from }
    ensures result_bound { nat_abs result ≤ 262144 }
{
    let mut sum = 0;
    for ch in 0usize..8 {
        sum = sum + (stems[from + 2 * ch] as i32);
    }
    sum
}

fn joined(a: i32, b: i32) -> i32
    requires { SFits w32 (a +ℤ b) }
    ensures { result ≡ a +ℤ b }
{
    a + b
}

// A side of frame n, before any clamping; the second core is silent in a frame that it does not have.
fn side_of(n: usize, hand: usize, stems: &[i16], others: &[i16]) -> i32
    requires { (hand ≤ 1) × (stems_per_frame * (n + 1) ≤ length stems.now) }
    ensures { result ≡ side_at n hand stems.now others.now }
{
    let at = STEMS * n + hand;
    let sum = sum_of(stems, at);
    if others.len() / STEMS <= n {
        return sum;
    }
    joined(sum, sum_of(others, at))
}

// The frames that there are stems and room for.
#[tactic(auto, unfolding(crate::specs::Sides::frames_in))]
fn frames_in(stems: usize, left: usize, right: usize, first: usize) -> usize
    ensures { result ≡ frames_in stems left right first }
{
    (stems / STEMS).min(left.min(right).saturating_sub(first))
}

// Each frame's side is added to a side from a place on.
fn add_side<T: SideNumber>(
    stems: &[i16],
    others: &[i16],
    hand: usize,
    side: &mut [T],
    first: usize,
    count: usize,
)
    requires { StemRoom count hand first (length stems.now) (length side.old) }
    ensures { side.new ≡ added T.silent T.plus count stems.now others.now hand first side.old }
{
    for i in 0..count {
        let at = first + i;
        side[at] = side[at].with_frame(side_of(i, hand, stems, others));
    }
}

// Frames are added to both sides from a place on, as many as there are stems and room for. `others` are the second core's stems; it is silent in the
// frames that they do not have.
pub fn add<T: SideNumber>(
    stems: &[i16],
    others: &[i16],
    left: &mut [T],
    right: &mut [T],
    first: usize,
)
    ensures left { left.new
        ≡ added T.silent T.plus (frames_in (length stems.now) (length left.old) (length right.old) first)
        stems.now others.now 0 first left.old }
    ensures right { right.new
        ≡ added T.silent T.plus (frames_in (length stems.now) (length left.old) (length right.old) first)
        stems.now others.now 1 first right.old }
{
    let count = frames_in(stems.len(), left.len(), right.len(), first);
    add_side(stems, others, 0, left, first, count);
    add_side(stems, others, 1, right, first, count);
}
