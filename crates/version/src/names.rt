// The versions' names.
ghost use Rattle.std.specs.Prelude.{◌≡◌, drop};
ghost use Rattle.version.specs.Names.{is_v, drop_v, same_text, either_text, named_version as named_by, parse_version};

use crate::SguVersion;
use crate::spaces::{text_end, text_start};

fn is_v(b: u8) -> bool
    ensures { result ≡ is_v b }
{
    b == b'v' || b == b'V'
}

// How many letters v a text begins with.
fn v_count(s: &[u8]) -> usize
    ensures { drop result s.now ≡ drop_v s.now }
{
    for (at, b) in s.iter().enumerate() {
        if !is_v(*b) {
            return at;
        }
    }
    s.len()
}

fn is_text(s: &[u8], name: &[u8]) -> bool
    ensures { result ≡ same_text s.now name.now }
{
    s == name
}

fn is_either(s: &[u8], name: &[u8], other: &[u8]) -> bool
    ensures { result ≡ either_text s.now name.now other.now }
{
    is_text(s, name) || is_text(s, other)
}

fn named(s: &[u8]) -> Option<SguVersion>
    ensures { result ≡ named_by s.now }
{
    if is_either(s, b"1", b"1.0") {
        return Some(SguVersion::V1);
    }
    if is_either(s, b"2", b"2.0") {
        return Some(SguVersion::V2);
    }
    if is_text(s, b"2.1") {
        return Some(SguVersion::V2_1);
    }
    if is_either(s, b"3", b"3.0") {
        return Some(SguVersion::V3);
    }
    if is_text(s, b"3.1") {
        return Some(SguVersion::V3_1);
    }
    None
}

impl SguVersion {
    // White space about the name and letters v before it do not count; bytes that are no UTF-8 name no version.
    pub fn parse(text: &[u8]) -> Option<SguVersion>
        ensures { result ≡ parse_version text.now }
    {
        let start = text_start(text);
        let t = num::tail(text, start);
        let end = text_end(t);
        let u = num::part(t, 0, end);
        let v = v_count(u);
        named(num::tail(u, v))
    }
}
