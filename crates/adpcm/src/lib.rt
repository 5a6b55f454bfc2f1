// One code of an SQV4 stream: its variants, the decoder's state, packed codes and the volume rules.
#![tactic(auto)]

ghost use Rattle.std.specs.Prelude.{◌≡◌, ℕ, ◌+◌, ◌*◌, ◌%◌, ◌^◌, ◌<◌, ◌≤◌, min, ℤ, pos, slice_index, slice_index_or, unsigned_abs};
ghost use Rattle.num.specs.Bytes.{field};
ghost use Rattle.adpcm.specs.Ima.{step_sizes, step_size, index_table, difference as ima_difference, index_after};
ghost use Rattle.adpcm.specs.Codes.{variant_of, bits_of, payload_bytes, fragment_size, legacy_fragment_size, levels_of, level_indexes};
ghost use Rattle.adpcm.specs.Codes.{level_difference, delta_at, delta_of, adjust_of, update_of, decode_at, decode_code, applied_volume};
ghost use Rattle.adpcm.specs.Codes.{legacy_volume, overlaid, code_at, variant_number};

#[derive(Clone, Copy, Debug, PartialEq, Eq)]
pub enum Variant {
    H,
    L,
    LPlus,
}

// A byte that no variant has in a file's header.
#[derive(Clone, Copy, Debug, PartialEq, Eq)]
pub struct UnknownVariant {
    pub byte: u8,
}

#[derive(Clone, Copy)]
pub struct State {
    pub predictor: i16,
    pub index: usize,
}

// The state that a decoder starts in.
impl Default for State {
    ghost is_default = { λ state. state ≡ record { predictor = pos 0; index = 0 } };

    fn default() -> State {
        State {
            predictor: 0,
            index: 0,
        }
    }
}

const STEPS: [u16; 89] = [
    7, 8, 9, 10, 11, 12, 13, 14, 16, 17, 19, 21, 23, 25, 28, 31, 34, 37, 41, 45, 50, 55, 60, 66,
    73, 80, 88, 97, 107, 118, 130, 143, 157, 173, 190, 209, 230, 253, 279, 307, 337, 371, 408, 449,
    494, 544, 598, 658, 724, 796, 876, 963, 1060, 1166, 1282, 1411, 1552, 1707, 1878, 2066, 2272,
    2499, 2749, 3024, 3327, 3660, 4026, 4428, 4871, 5358, 5894, 6484, 7132, 7845, 8630, 9493,
    10442, 11487, 12635, 13899, 15289, 16818, 18500, 20350, 22385, 24623, 27086, 29794, 32767,
];

// The variant's byte in a header.
impl From<Variant> for u8 {
    ghost from_gives = { λ variant byte. byte ≡ variant_number variant };

    fn from(variant: Variant) -> u8 {
        match variant {
            Variant::H => 0,
            Variant::L => 1,
            Variant::LPlus => 2,
        }
    }
}

// The variant of such a byte.
impl TryFrom<u8> for Variant {
    type Error = UnknownVariant;

    ghost try_from_gives = { λ byte found. found ≡ variant_of byte };

    fn try_from(byte: u8) -> Result<Variant, UnknownVariant> {
        match byte {
            0 => Ok(Variant::H),
            1 => Ok(Variant::L),
            2 => Ok(Variant::LPlus),
            _ => Err(UnknownVariant { byte }),
        }
    }
}

impl Variant {
    // The bits of a code.
    pub fn bits(self) -> usize
        ensures { result ≡ bits_of self }
    {
        match self {
            Variant::H => 4,
            Variant::L | Variant::LPlus => 3,
        }
    }

    // The packed codes of a version 3 fragment: 63, in whole bytes.
    pub fn payload_bytes(self) -> usize
        ensures { result ≡ payload_bytes self }
    {
        match self {
            Variant::H => 32,
            Variant::L | Variant::LPlus => 24,
        }
    }

    // A version 3 fragment: volume, step index, packed codes.
    pub fn fragment_size(self) -> usize
        ensures { result ≡ fragment_size self }
    {
        match self {
            Variant::H => 34,
            Variant::L | Variant::LPlus => 26,
        }
    }

    // A fragment of version 1 or 2: volume and 64 packed codes.
    pub fn legacy_fragment_size(self) -> usize
        ensures { result ≡ legacy_fragment_size self }
    {
        match self {
            Variant::H => 33,
            Variant::L | Variant::LPlus => 25,
        }
    }
}

// For a reader of many: a constant table is written out at each use.
pub fn step_sizes() -> [u16; 89]
    ensures { result ≡ step_sizes }
{
    STEPS
}

fn step_size(index: usize) -> u32
    ensures { (result ≡ step_size index) × (result < 2 ^ 15) }
{
    STEPS[index.min(88)] as u32
}

fn index_after(index: usize, adjust: i32) -> usize
    requires { unsigned_abs adjust ≤ 8 }
    ensures { result ≡ index_after index adjust }
{
    let moved = (index.min(88) as i32) + adjust;
    moved.clamp(0, 88) as usize
}

// H: the parts of a step that three bits select.
fn difference(step: u32, code: u8) -> u16
    requires { step < 2 ^ 15 }
    ensures { result ≡ ima_difference step code }
{
    let c = code as u32;
    let d = ((c >> 2) & 1) * step
        + ((c >> 1) & 1) * (step >> 1)
        + (c & 1) * (step >> 2)
        + (step >> 3);
    d as u16
}

// Computed, not read from tables: a constant table is written out at each use.
fn level_at(version: u8, variant: Variant, at: usize) -> u32
    requires { at < 4 }
    ensures { (result ≡ slice_index (levels_of version variant) at) × (result ≤ 14) }
{
    let n = at as u32;
    match variant {
        Variant::H => 0,
        Variant::L => 2 * n + 1,
        Variant::LPlus => {
            if version == 1 {
                n + (n + 1) / 4 + 10
            } else {
                n + (n + 1) / 4 * 10 + 1
            }
        }
    }
}

// L and L+: eighths of a step, to the nearest.
fn level_difference(version: u8, variant: Variant, step: u32, code: u8) -> u16
    requires { step < 2 ^ 15 }
    ensures { result ≡ level_difference (levels_of version variant) step code }
{
    let level = level_at(version, variant, (code & 3) as usize);
    ((level * step + 4) / 8) as u16
}

// The difference that a code stands for at a step size.
fn delta_at(version: u8, variant: Variant, step: u32, code: u8) -> i32
    requires { step < 2 ^ 15 }
    ensures { (result ≡ delta_at version variant step code) × (unsigned_abs result < 2 ^ 16) }
{
    match variant {
        Variant::H => num::with_sign((code >> 3) & 1 == 1, difference(step, code)),
        Variant::L | Variant::LPlus => num::with_sign(
            (code >> 2) & 1 == 1,
            level_difference(version, variant, step, code),
        ),
    }
}

// The same at the state's own step size.
pub fn delta(version: u8, variant: Variant, state: State, code: u8) -> i32
    ensures { (result ≡ delta_of version variant state code) × (unsigned_abs result < 2 ^ 16) }
{
    delta_at(version, variant, step_size(state.index), code)
}

// H: one step back without bit 2, else on by two, four, six or eight.
fn code_adjust(code: u8) -> i32
    ensures { result ≡ slice_index_or index_table (code % 16) (pos 0) }
{
    let size = code & 7;
    if size < 4 {
        return -1;
    }
    (2 * size - 6) as i32
}

// L and L+: one step back for the lowest level, else on by two a level.
fn level_adjust(level: u8) -> i32
    requires { level < 4 }
    ensures { result ≡ slice_index_or level_indexes level (pos 0) }
{
    if level == 0 {
        return -1;
    }
    (2 * level) as i32
}

// How far a code moves the step index.
// Kept as it is: with one arm for L and L+ a log of stream voices takes 1.005 times the instructions.
fn adjust(variant: Variant, code: u8) -> i32
    ensures { (result ≡ adjust_of variant code) × (unsigned_abs result ≤ 8) }
{
    let two = code & 3;
    match variant {
        Variant::H => code_adjust(code),
        Variant::L => level_adjust(two),
        Variant::LPlus => level_adjust(two),
    }
}

fn update(state: State, delta: i32, adjust: i32) -> State
    requires { (unsigned_abs delta < 2 ^ 16) × (unsigned_abs adjust ≤ 8) }
    ensures { result ≡ update_of state delta adjust }
{
    let moved = (state.predictor as i32) + delta;
    State {
        predictor: num::clamp16(moved),
        index: index_after(state.index, adjust),
    }
}

// The state after a code: its predictor is the sample ahead of the volume.
pub fn decode_code(version: u8, variant: Variant, state: State, code: u8) -> State
    ensures { result ≡ decode_code version variant state code }
{
    update(
        state,
        delta(version, variant, state, code),
        adjust(variant, code),
    )
}

// The same at a given step size; one above 32,767 counts as 32,767.
pub fn decode_at(version: u8, variant: Variant, state: State, size: u16, code: u8) -> State
    ensures { result ≡ decode_at version variant state (min size 32767) code }
{
    let step = size.min(32767) as u32;
    update(
        state,
        delta_at(version, variant, step, code),
        adjust(variant, code),
    )
}

// Version 3's volume: to the nearest 255th, a tie away from zero.
pub fn apply_volume(reconstructed: i16, volume: u8) -> i16
    ensures { result ≡ applied_volume reconstructed volume }
{
    let size = (reconstructed as i32).unsigned_abs();
    let rounded = (size * (volume as u32) + 127) / 255;
    num::with_sign(reconstructed < 0, rounded as u16) as i16
}

// The older volume: toward zero.
pub fn apply_legacy_volume(reconstructed: i16, volume: u8) -> i16
    ensures { result ≡ legacy_volume reconstructed volume }
{
    ((reconstructed as i32) * (volume as i32) / 255) as i16
}

// The bits from bit `within` of a byte on, low bits first; past the last byte there are zeros.
fn bits_in(input: &[u8], at: usize, within: usize, width: usize) -> u8
    requires { (within ≤ 7) × (width ≤ 8) }
    ensures { result ≡ field input.now (8 * at + within) width }
{
    if input.len() <= at {
        return 0;
    }
    let low = num::byte_at(input, at) as u32;
    let high = num::byte_at(input, at + 1) as u32;
    let mask = (1u32 << (width as u32)) - 1;
    (((low + 256 * high) >> (within as u32)) & mask) as u8
}

// Bytes from bit `within` of a byte on, one over the other.
fn overlay(input: &[u8], at: usize, within: usize, bytes: usize) -> u8
    requires { (within ≤ 7) × (at + bytes < 2 ^ 64) }
    ensures { result ≡ overlaid input.now (8 * at + within) bytes }
{
    let mut code = 0;
    for i in 0..bytes {
        code |= bits_in(input, at + i, within, 8);
    }
    code
}

// The code of a sample, of any width: bit i of it is set at place i % 8.
pub fn unpack_code(input: &[u8], sample: usize, bits: usize) -> u8
    ensures { result ≡ code_at input.now sample bits }
{
    let first = sample.wrapping_mul(bits);
    let at = first / 8;
    let within = first % 8;
    let bytes = bits / 8;
    let code = overlay(input, at, within, bytes.min(input.len()));
    code | bits_in(input, at + bytes, within, bits % 8)
}

// The code that begins at a bit, of at most 8 bits.
pub fn unpack_bits(input: &[u8], bit: usize, bits: usize) -> u8
    ensures { result ≡ field input.now bit (min bits 8) }
{
    bits_in(input, bit / 8, bit % 8, bits.min(8))
}
