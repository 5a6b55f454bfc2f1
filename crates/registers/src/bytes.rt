// The bytes of a register. Byte 0 is the lowest.
ghost use Rattle.std.specs.Prelude.{◌≡◌, ◌≤◌};
ghost use Rattle.num.specs.Bits.{byte_of, with_byte};

pub(crate) fn byte(x: u32, index: u8) -> u8
    requires { index ≤ 3 }
    ensures { result ≡ byte_of index x }
{
    let shift = 8 * (index as u32);
    ((x >> shift) & 0xFF) as u8
}

pub(crate) fn with_byte(x: u32, index: u8, value: u8) -> u32
    requires { index ≤ 3 }
    ensures { result ≡ with_byte index value x }
{
    let shift = 8 * (index as u32);
    (x & !(0xFFu32 << shift)) | ((value as u32) << shift)
}

// The same of a register of 16 bits.
// Kept as it is: one function over u16 and u32 would need a trait with both conversions; this line is shorter.
pub(crate) fn with_byte_16(x: u16, index: u8, value: u8) -> u16
    requires { index ≤ 1 }
    ensures { result ≡ with_byte index value x }
{
    with_byte(x as u32, index, value) as u16
}
