// What modulation makes of an unsigned Q8.8 value: ring, window, slews; then the value about its centre.
ghost use Rattle.std.specs.Prelude.{◌≡◌, ◌≤◌, max, pos};
ghost use Rattle.num.specs.Integers.{up, clamp};
ghost use Rattle.tone.specs.Shape.{slew_rate, slew_step};
ghost use Rattle.tone.specs.Shape.{rung as rung_of, ring as ring_of, window as window_of, slew as slew_of, slewed as slewed_of};
ghost use Rattle.tone.specs.Shape.{centred as centred_of};

fn limited(x: i64, top: u16) -> u16
    ensures { (result ≡ up (clamp x (pos 0) (pos top))) × (result ≤ top) }
{
    if x < 0 {
        return 0;
    }
    if (top as i64) < x {
        return top;
    }
    x as u16
}

fn rung(value: u16, centre: u16, top: u16, modulator: i16, param_1: u16) -> u16
    ensures { (result ≡ rung_of value centre top modulator param_1) × (result ≤ top) }
{
    let scale = (modulator as i64) * (param_1 as i64);
    let original = (value as i64) - (centre as i64);
    limited(original * scale / 65536 + (centre as i64), top)
}

// Ring modulation; without interpolation on whole samples.
pub fn ring(q8: u16, modulator: i16, param_1: u16, interpolate: bool) -> u16
    ensures { result ≡ ring_of q8 modulator param_1 interpolate }
{
    if interpolate {
        return rung(q8, 32768, 65280, modulator, param_1);
    }
    rung(q8 >> 8, 128, 255, modulator, param_1) * 256
}

// The centre where the modulator is negative.
pub fn window(q8: u16, modulator: i16) -> u16
    ensures { result ≡ window_of q8 modulator }
{
    if modulator < 0 { 32768 } else { q8 }
}

// The slew register moves toward a value, by at most a step: the value, kept between a step down and a step up.
#[tactic(auto, unfolding(crate::specs::Shape::slew_rate))]
pub fn slew_rate(current: u16, q8: u16, step: u16) -> u16
    ensures result { result ≡ slew_rate current q8 step }
    ensures bound { result ≤ 65280 }
{
    let now = current as usize;
    let by = step as usize;
    let near = (q8 as usize).max(now.saturating_sub(by));
    near.min(now + by).min(65280) as u16
}

// It moves by a whole step: down where the value is met.
#[tactic(auto, unfolding(crate::specs::Shape::slew_step))]
pub fn slew_step(current: u16, q8: u16, step: u16) -> u16
    ensures result { result ≡ slew_step current q8 step }
    ensures bound { result ≤ 65280 }
{
    let now = current as usize;
    let by = step as usize;
    if current < q8 {
        return (now + by).min(65280) as u16;
    }
    now.saturating_sub(by).min(65280) as u16
}

// The slew register after a tick: modulation 5 is the rate, 6 the step.
// Kept as it is: `slew` and `slewed` are public and take every number; an enum would ask more of callers.
#[tactic(auto, unfolding(crate::specs::Shape::slew))]
pub fn slew(modulation: u8, current: u16, q8: u16, step: u16) -> u16
    ensures result { result ≡ slew_of modulation current q8 step }
    ensures upper_bound { current ≤ 65280 → result ≤ 65280 }
{
    match modulation {
        5 => slew_rate(current, q8, step),
        6 => slew_step(current, q8, step),
        _ => current,
    }
}

// What is heard: the slew register where one of the two is on.
#[tactic(auto, unfolding(crate::specs::Shape::slewed))]
pub fn slewed(modulation: u8, slew: u16, q8: u16) -> u16
    ensures { result ≡ slewed_of modulation slew q8 }
{
    match modulation {
        5 | 6 => slew,
        _ => q8,
    }
}

// About the centre; without interpolation whole samples.
pub fn centred(q8: u16, interpolate: bool) -> i16
    ensures { result ≡ centred_of q8 interpolate }
{
    if interpolate {
        return ((q8 as i32) - 32768) as i16;
    }
    (((q8 & 65280) as i32) - 32768) as i16
}
