// The check of a file: its header, its length, and each fragment's step index and padding.
ghost use Rattle.std.specs.Prelude.{◌≡◌, cond, true, false, ℕ, ◌+◌, ◌-◌, ◌*◌, ◌/◌, ◌^◌, ◌<◌, ◌≤◌, min, eqb, ltb, length, get_or, drop};
ghost use Rattle.num.specs.Lists.{part};
ghost use Rattle.num.specs.Bytes.{le};
ghost use Rattle.adpcm.specs.Codes.{bits_of};
ghost use Rattle.sqv4.specs.Files.{frame_samples_of, prefix_of, frame_size_of, frame_count_of, magic, frame_length, used_at, fault_in};
ghost use Rattle.sqv4.specs.Files.{faults_from, header_of, measured, named, inspected, number_of, refused_with, Fills};

use crate::{Fault, Header, InspectError};
use adpcm::Variant;

// The four bytes that a file begins with.
pub const MAGIC: [u8; 4] = *b"SQV4";

// The bytes of a stream: that part of the caller's RAM.
pub fn stream_bytes(ram: &[u8], start: usize, end: usize) -> &[u8]
    ensures { result.now ≡ part ram.now start (end - start) }
{
    num::part(ram, start, end)
}

fn has_magic(file: &[u8]) -> bool
    requires { 4 ≤ length file.now }
    ensures { result ≡ magic file.now }
{
    file.starts_with(&MAGIC)
}

// A number of four bytes, the first lowest.
fn number(file: &[u8], at: usize) -> usize
    requires { at + 4 ≤ length file.now }
    ensures result { result ≡ le (part file.now at 4) }
    ensures upper_bound { result < 2 ^ 32 }
{
    u32::from_le_bytes([file[at], file[at + 1], file[at + 2], file[at + 3]]) as usize
}

pub(crate) fn prefix_of(version: u8) -> usize
    ensures result { result ≡ prefix_of version }
    ensures bound { result ≤ 2 }
{
    if version == 3 { 2 } else { 1 }
}

// The samples of a full fragment of one channel.
pub fn frame_samples(version: u8) -> usize
    ensures result { result ≡ frame_samples_of version }
    ensures lower_bound { (63 ≤ result) × (result ≤ 64) }
{
    if version == 3 { 63 } else { 64 }
}

// The bytes of a fragment.
pub fn frame_size(version: u8, variant: Variant) -> usize
    ensures result { result ≡ frame_size_of version variant }
    ensures lower_bound { (2 ≤ result) × (result ≤ 34) }
{
    if version == 3 {
        variant.fragment_size()
    } else {
        variant.legacy_fragment_size()
    }
}

fn frame_count(per: usize, samples: usize) -> usize
    requires fact_1 { (63 ≤ per) × (per ≤ 64) }
    requires fact_2 { samples < 2 ^ 32 }
    ensures result { result ≡ frame_count_of per samples }
    ensures upper_bound { result < 2 ^ 32 }
{
    (samples + (per - 1)) / per
}

// The samples of fragment `frame` of a channel.
pub(crate) fn frame_length(header: Header, frame: usize) -> usize
    requires { (header.frame_samples ≤ 64) × (frame < 2 ^ 40) }
    ensures result { result ≡ frame_length header frame }
    ensures bound { result ≤ 64 }
{
    let per = header.frame_samples;
    let samples = header.samples_per_channel;
    let first = frame * per;
    if samples <= first {
        return 0;
    }
    per.min(samples - first)
}

// No byte but 0 from a place on.
fn zeros(s: &[u8], from: usize) -> bool
    ensures { result ≡ eqb (le (drop from s.now)) 0 }
{
    let rest = num::tail(s, from);
    for byte in rest {
        if *byte != 0 {
            return false;
        }
    }
    true
}

// No bit set from bit `used` on.
fn clean(payload: &[u8], used: usize) -> bool
    requires { used < 2 ^ 16 }
    ensures { result ≡ ltb (le payload.now) (2 ^ used) }
{
    let whole = used / 8;
    if num::byte_at(payload, whole) >> ((used % 8) as u32) != 0 {
        return false;
    }
    zeros(payload, whole + 1)
}

// A step index that no fragment of the version has.
fn bad_step(version: u8, index: u8) -> bool
    ensures { result ≡ cond (eqb version 3) (ltb 88 index) false }
{
    if version == 3 {
        return 88 < index;
    }
    false
}

// A fragment's fault, if it has one.
fn fault_in(version: u8, used: usize, fragment: &[u8]) -> Result<(), Fault>
    requires { used < 2 ^ 16 }
    ensures { result ≡ fault_in version used fragment.now }
{
    let index = num::byte_at(fragment, 1);
    if bad_step(version, index) {
        return Err(Fault::Step(index));
    }
    if clean(num::tail(fragment, prefix_of(version)), used) {
        Ok(())
    } else {
        Err(Fault::Padding)
    }
}

// The bits of the codes of the fragment at a position.
fn used_at(header: Header, position: usize) -> usize
    requires { (header.frame_samples ≤ 64) × (1 ≤ header.channels) × (position < 2 ^ 40) }
    ensures result { result ≡ used_at header position }
    ensures upper_bound { result < 2 ^ 16 }
{
    let variant = header.variant;
    let channels = header.channels as usize;
    frame_length(header, position / channels) * variant.bits()
}

// The fragments, one after the other.
fn faults(file: &[u8], header: Header) -> Result<Header, InspectError>
    requires { Fills file.now header }
    ensures { result ≡ faults_from file.now header 0 (header.frame_count * header.channels) }
{
    let size = header.frame_size;
    let total = header.frame_count * (header.channels as usize);
    let mut at = 16;
    for position in 0..total {
        let from = at;
        at += size;
        fault_in(header.version, used_at(header, position), &file[from..at])?;
    }
    Ok(header)
}

fn one_or_two(channels: u8) -> bool
    ensures result { result ≡ cond (eqb channels 1) true (eqb channels 2) }
    ensures le_channels { result ≡ true → (1 ≤ channels) × (channels ≤ 2) }
{
    if channels == 1 {
        return true;
    }
    channels == 2
}

fn known_version(version: u8) -> bool
    ensures { result ≡ cond (ltb 0 version) (ltb version 4) false }
{
    if 0 < version {
        return version < 4;
    }
    false
}

// The check of the length and the fragments.
fn measure(file: &[u8], variant: Variant, rate: usize) -> Result<Header, InspectError>
    requires fact_1 { (16 ≤ length file.now) × (rate < 2 ^ 32) }
    requires fact_2 { (1 ≤ get_or file.now 6 0) × (get_or file.now 6 0 ≤ 2) }
    requires fact_3 { rate
        ≡ le (part file.now 8 4) }
    ensures { result ≡ measured file.now (header_of file.now variant) }
{
    let version = file[4];
    let channels = file[6];
    let samples = number(file, 12);
    let per = frame_samples(version);
    let count = frame_count(per, samples);
    let size = frame_size(version, variant);
    let expected = count * (channels as usize) * size + 16;
    if file.len() != expected {
        return Err(InspectError::InvalidFileLength {
            expected,
            actual: file.len(),
        });
    }
    let header = Header {
        version,
        variant,
        channels,
        sample_rate: rate as u32,
        samples_per_channel: samples,
        frame_samples: per,
        frame_count: count,
        frame_size: size,
    };
    faults(file, header)
}

// The check, once the variant is known.
fn check_named(file: &[u8], variant: Variant) -> Result<Header, InspectError>
    requires { 16 ≤ length file.now }
    ensures { result ≡ named file.now variant }
{
    let channels = file[6];
    if one_or_two(channels) {
        let zero = file[7];
        if zero != 0 {
            return Err(InspectError::InvalidReservedByte(zero));
        }
        let rate = number(file, 8);
        if rate == 0 {
            return Err(InspectError::ZeroSampleRate);
        }
        return measure(file, variant, rate);
    }
    Err(InspectError::InvalidChannels(channels))
}

// The check of a file.
pub fn inspect(file: &[u8]) -> Result<Header, InspectError>
    ensures result { result ≡ inspected file.now }
    ensures result_value { number_of result ≡ refused_with file.now }
{
    if file.len() < 16 {
        return Err(InspectError::TruncatedHeader);
    }
    if has_magic(file) {
        let version = file[4];
        if known_version(version) {
            let variant = Variant::try_from(file[5])?;
            return check_named(file, variant);
        }
        return Err(InspectError::UnsupportedVersion(version));
    }
    Err(InspectError::InvalidMagic)
}
