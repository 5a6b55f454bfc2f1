// Answers calls of the decoder's leaves on standard input, each of 256 bytes: a line with two numbers, and a line for each sample of
// its buffer. A call is eight numbers of 8 bytes, low byte first, and 192 bytes: the kind of call, version, variant, then
// kind 0, unpack_code: sample, width, 0, length of the slice, length of the buffer (0);
// kind 1, decode_code: predictor, index, code;
// kind 2, decode_fragment, and 3, decode_legacy_fragment: predictor, index, 0, length of the slice, length of the buffer.
#![tactic(auto)]

ghost use Rattle.std.specs.Prelude.{◌≤◌};

use adpcm::{State, Variant};
use output::Output;

// The descriptors of standard input and standard output.
const STDIN: i32 = 0;

const STDOUT: i32 = 1;

// Number k of a call.
fn number(call: &[u8; 256], k: usize) -> usize
    requires { k ≤ 7 }
{
    usize::from_le_bytes(call.as_chunks::<8>().0[k])
}

fn variant_of(call: &[u8; 256]) -> Variant {
    Variant::try_from(num::byte_at(call, 16)).unwrap_or(Variant::H)
}

fn state_of(call: &[u8; 256]) -> State {
    let bits = (number(call, 3) % 65536) as u16;
    State {
        predictor: num::signed16(bits),
        index: number(call, 4),
    }
}

fn numbers_of(state: State) -> [u64; 2] {
    [num::bits16(state.predictor) as u64, state.index as u64]
}

// Makes the call. It gives a code and 0, or a state's predictor and index.
fn answer(call: &[u8; 256], out: &mut [i16]) -> [u64; 2] {
    let version = num::byte_at(call, 8);
    let variant = variant_of(call);
    let state = state_of(call);
    let slice = num::part(call, 64, 64 + number(call, 6).min(192));
    match num::byte_at(call, 0) {
        0 => [
            adpcm::unpack_code(slice, number(call, 3), number(call, 4)) as u64,
            0,
        ],
        1 => numbers_of(adpcm::decode_code(version, variant, state, num::byte_at(call, 40))),
        2 => {
            sqv4::decode_fragment(variant, slice, out);
            numbers_of(state)
        }
        _ => numbers_of(sqv4::decode_legacy_fragment(version, variant, state, slice, out)),
    }
}

// Writes what a call gives, and the samples of its buffer.
fn tell(call: &[u8; 256], out: &mut [i16], text: &mut [u8]) {
    let values = answer(call, out);
    let mut line = Output {
        buffer: &mut *text,
        at: 0,
    };
    sqv4_text::put_fields(&mut line, &values);
    line.put_byte(10);
    sqv4_text::put_samples(&mut line, out);
    let end = line.at;
    io::write_all(STDOUT, num::part(text, 0, end));
}

// Answers a call, over a buffer that held 12,345 everywhere.
fn print(call: &[u8; 256]) {
    let mut out = [12345i16; 128];
    let mut text = [0u8; 1024];
    let count = number(call, 7).min(128);
    tell(call, &mut out[..count], &mut text);
}

fn print_all(call: &mut [u8; 256]) {
    for _ in 0..u64::MAX {
        if io::read_full(STDIN, &mut *call) < 256 {
            return;
        }
        print(call);
    }
}

fn main() {
    let mut call = [0u8; 256];
    print_all(&mut call);
}
