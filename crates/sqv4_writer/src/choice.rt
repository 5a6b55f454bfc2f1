// The codes that are taken for samples.
ghost use Rattle.std.specs.Prelude.{◌≡◌, ◌≤◌, min, length, get_or, replicate};
ghost use Rattle.std.proofs.lemmas.List.Edits.{sets};
ghost use Rattle.adpcm.specs.Ima.{step_sizes};
ghost use Rattle.sqv4.specs.Decoding.{start_of};
ghost use Rattle.sqv4_writer.specs.Choice.{last_code, distance_of, code_for, codes_for};

use crate::{Terms, VERSION};
use adpcm::{State, Variant};

// A variant's largest code.
fn last_code(variant: Variant) -> u8
    ensures { result ≡ last_code variant }
{
    match variant {
        Variant::H => 15,
        Variant::L => 7,
        Variant::LPlus => 7,
    }
}

// How far from a sample a code's value after volume is; `size` is the state's step size.
fn distance(variant: Variant, state: State, size: u16, volume: u8, sample: i16, code: u8) -> u32
    requires { size ≡ get_or step_sizes (min state.index 88) 0 }
    ensures { result ≡ distance_of variant volume state sample code }
{
    let next = adpcm::decode_at(VERSION, variant, state, size, code);
    let value = adpcm::apply_volume(next.predictor, volume);
    ((value as i32) - (sample as i32)).unsigned_abs()
}

// The nearest of all codes, the smaller on a tie.
fn nearest_code(variant: Variant, state: State, size: u16, volume: u8, sample: i16) -> u8
    requires { size ≡ get_or step_sizes (min state.index 88) 0 }
    ensures { result ≡ code_for variant volume state sample }
{
    let last = last_code(variant);
    let mut best = 0u8;
    let mut least = distance(variant, state, size, volume, sample, 0);
    for code in 1..=last {
        let far = distance(variant, state, size, volume, sample, code);
        if far < least {
            best = code;
            least = far;
        }
    }
    best
}

// A fragment's codes, and zeros behind them; the state goes on with each.
pub(crate) fn choose_codes(samples: &[i16], terms: Terms) -> [u8; 64]
    requires { length samples.now ≤ 63 }
    ensures { result ≡ sets (replicate 64 0) 0 (codes_for terms.variant terms.volume (start_of terms.index) samples.now) }
{
    let variant = terms.variant;
    let steps = adpcm::step_sizes();
    let mut codes = [0u8; 64];
    let mut state = State {
        predictor: 0,
        index: (terms.index as usize).min(88),
    };
    for (i, &sample) in samples.iter().enumerate() {
        let at = state.index.min(88);
        let code = nearest_code(variant, state, steps[at], terms.volume, sample);
        codes[i] = code;
        state = adpcm::decode_at(VERSION, variant, state, steps[at], code);
    }
    codes
}
