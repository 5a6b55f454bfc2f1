// A fragment's samples.
ghost use Rattle.std.specs.Prelude.{◌≡◌, cond, ℕ, ◌+◌, ◌*◌, ◌/◌, ◌^◌, ◌<◌, ◌≤◌, min, eqb, length, get_or, set, ℤ};
ghost use Rattle.adpcm.specs.Codes.{bits_of};
ghost use Rattle.sqv4.specs.Decoding.{codes_from, sound_of, sounds, ends, zero_state, start_of, begins, samples_of, state_of, reached};
ghost use Rattle.sqv4.specs.Decoding.{fragment_into, state_behind, legacy_version, strided};

use adpcm::{State, Variant};

// Where samples go: `count` of them, at every `step`-th place from `at` on.
#[derive(Clone, Copy)]
pub(crate) struct Places {
    pub at: usize,
    pub step: usize,
    pub count: usize,
}

fn put(out: &mut [i16], at: usize, sample: i16)
    ensures { out.new ≡ set out.old at sample }
{
    if at < out.len() {
        out[at] = sample;
    }
}

fn sound(version: u8, predictor: i16, volume: u8) -> i16
    ensures { result ≡ sound_of version predictor volume }
{
    if version == 3 {
        adpcm::apply_volume(predictor, volume)
    } else {
        adpcm::apply_legacy_volume(predictor, volume)
    }
}

// A run of codes: the samples go to their places, and the state after them comes back.
// Kept as it is: a struct of version, variant and state would be taken apart at once, since `adpcm::decode_at` is public and takes the three apart.
fn decode_codes(
    version: u8,
    variant: Variant,
    start: State,
    volume: u8,
    payload: &[u8],
    out: &mut [i16],
    places: Places,
) -> State
    requires { (places.count < 2 ^ 62) × (places.step ≤ 2) × (places.at < 2 ^ 40) }
    ensures out { out.new
        ≡ strided out.old places.at places.step
        (sounds version variant volume start (codes_from variant payload.now 0 places.count)) }
    ensures result { result ≡ ends version variant start (codes_from variant payload.now 0 places.count) }
{
    let bits = variant.bits();
    let steps = adpcm::step_sizes();
    let step = places.step;
    let count = places.count;
    let mut state = start;
    let mut at = places.at;
    for i in 0..count {
        let index = state.index.min(88);
        state = adpcm::decode_at(
            version,
            variant,
            state,
            steps[index],
            adpcm::unpack_bits(payload, i * bits, bits),
        );
        put(out, at, sound(version, state.predictor, volume));
        at += step;
    }
    state
}

// The state that a fragment begins in, where the one before it ended in `state`.
fn begin(version: u8, state: State, index: u8) -> State
    ensures { result ≡ cond (eqb version 3) (start_of index) state }
{
    if version != 3 {
        return state;
    }
    State {
        predictor: 0,
        index: (index as usize).min(88),
    }
}

// A fragment's first samples, and the state after them.
pub(crate) fn decode_part(
    version: u8,
    variant: Variant,
    state: State,
    fragment: &[u8],
    out: &mut [i16],
    places: Places,
) -> State
    requires { (places.count < 2 ^ 62) × (places.step ≤ 2) × (places.at < 2 ^ 40) }
    ensures out { out.new
        ≡ strided out.old places.at places.step (samples_of version variant state fragment.now places.count) }
    ensures result { result ≡ state_of version variant state fragment.now places.count }
{
    let volume = num::byte_at(fragment, 0);
    let start = begin(version, state, num::byte_at(fragment, 1));
    let payload = num::tail(fragment, crate::check::prefix_of(version));
    decode_codes(version, variant, start, volume, payload, out, places)
}

// The codes that lie whole in a number of bytes.
fn codes_in(variant: Variant, bytes: usize) -> usize
    requires { bytes < 2 ^ 62 }
    ensures { result ≡ 8 * bytes / bits_of variant }
{
    match variant {
        Variant::H => 2 * bytes,
        Variant::L | Variant::LPlus => 2 * bytes + 2 * bytes / 3,
    }
}

// How many of `wanted` samples have their codes whole in the fragment.
fn reach(version: u8, variant: Variant, fragment: &[u8], wanted: usize) -> usize
    requires { wanted < 2 ^ 62 }
    ensures { result ≡ reached version variant fragment.now wanted }
{
    let bytes = fragment
        .len()
        .saturating_sub(crate::check::prefix_of(version));
    wanted.min(codes_in(variant, bytes.min(wanted)))
}

// The first samples of a version 3 fragment, as far as its codes and the buffer reach.
pub fn decode_fragment(variant: Variant, fragment: &[u8], out: &mut [i16])
    ensures { out.new ≡ fragment_into out.old 3 variant zero_state fragment.now }
{
    let places = Places {
        at: 0,
        step: 1,
        count: reach(3, variant, fragment, out.len()),
    };
    decode_part(3, variant, State::default(), fragment, out, places);
}

fn legacy_version(version: u8) -> u8
    ensures { result ≡ legacy_version version }
{
    if version == 1 { 1 } else { 2 }
}

// The first samples of a fragment of version 1 or 2, as far as its codes and the buffer reach, and the state after them.
pub fn decode_legacy_fragment(
    version: u8,
    variant: Variant,
    state: State,
    fragment: &[u8],
    out: &mut [i16],
) -> State
    ensures out { out.new ≡ fragment_into out.old (legacy_version version) variant state fragment.now }
    ensures result { result ≡ state_behind out.old (legacy_version version) variant state fragment.now }
{
    let older = legacy_version(version);
    let places = Places {
        at: 0,
        step: 1,
        count: reach(older, variant, fragment, out.len()),
    };
    decode_part(older, variant, state, fragment, out, places)
}
