// A stream voice's file: the check of its part of the RAM, and its loop address.
ghost use Rattle.std.specs.Prelude.{◌≡◌, ◌+◌, ◌^◌, ◌<◌, ◌≤◌, true, length, if◌then◌else◌, nat_eq};
ghost use Rattle.sqv4.specs.Files.{inspected};
ghost use Rattle.stream.specs.File.{info_of, looped, is_wanted, opened_as, opened_in};

use crate::Info;
use adpcm::Variant;
use sqv4::Header;

fn info_of(header: Header, loop_sample: usize) -> Info
    ensures { result ≡ info_of header loop_sample }
{
    Info {
        version: header.version,
        sample_count: header.samples_per_channel,
        frame_samples: header.frame_samples,
        frame_size: header.frame_size,
        loop_sample,
    }
}

fn at_start(start: usize, loop_addr: usize) -> bool
    ensures { result ≡ (if nat_eq loop_addr 0 then true else nat_eq loop_addr start) }
{
    if loop_addr == 0 {
        return true;
    }
    loop_addr == start
}

// A loop address is 0, the start, or the address of a fragment.
fn with_loop(start: usize, loop_addr: usize, header: Header) -> Option<(Variant, Info)>
    requires { (start + 16 < 2 ^ 64) × (0 < header.frame_size) × (header.frame_count < 2 ^ 32) × (header.frame_samples ≤ 64) }
    ensures { result ≡ looped start loop_addr header }
{
    let variant = header.variant;
    if at_start(start, loop_addr) {
        return Some((variant, info_of(header, 0)));
    }
    let first = start + 16;
    if loop_addr < first {
        return None;
    }
    let offset = loop_addr - first;
    let size = header.frame_size;
    if offset % size != 0 {
        return None;
    }
    let frame = offset / size;
    if frame < header.frame_count {
        return Some((variant, info_of(header, frame * header.frame_samples)));
    }
    None
}

// Mono files: version 3 where it is wanted, versions 1 and 2 elsewhere.
fn is_wanted(wants_v3: bool, channels: u8, version: u8) -> bool
    ensures { result ≡ is_wanted wants_v3 channels version }
{
    if channels == 1 {
        if wants_v3 {
            return version == 3;
        }
        return version != 3;
    }
    false
}

fn open_bytes(
    file: &[u8],
    wants_v3: bool,
    start: usize,
    loop_addr: usize,
) -> Option<(Variant, Info)>
    requires { start + length file.now < 2 ^ 64 }
    ensures { result ≡ opened_as wants_v3 start loop_addr (inspected file.now) }
{
    let Ok(header) = sqv4::inspect(file) else {
        return None;
    };
    if is_wanted(wants_v3, header.channels, header.version) {
        return with_loop(start, loop_addr, header);
    }
    None
}

// The file that a voice finds in the RAM from start to end.
pub fn initialize_sqv4(
    ram: &[u8],
    wants_v3: bool,
    start: usize,
    end: usize,
    loop_addr: usize,
) -> Option<(Variant, Info)>
    ensures { result ≡ opened_in ram.now wants_v3 start end loop_addr }
{
    if end <= start {
        return None;
    }
    if ram.len() < end {
        return None;
    }
    open_bytes(
        sqv4::stream_bytes(ram, start, end),
        wants_v3,
        start,
        loop_addr,
    )
}
