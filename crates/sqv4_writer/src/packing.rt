// Codes packed into bytes, the first code in the lowest bits.
ghost use Rattle.std.specs.Prelude.{◌≡◌, ℕ, ◌*◌, ◌≤◌, ◌<◌, ◌^◌, length, get_or, set, replicate};
ghost use Rattle.std.proofs.lemmas.List.Edits.{sets};
ghost use Rattle.sqv4_writer.specs.Packing.{codes_number, bytes_of};

// Stores a byte, if there is room for it.
fn store(out: &mut [u8], at: usize, byte: u8)
    ensures { out.new ≡ set out.old at byte }
{
    if at < out.len() {
        out[at] = byte;
    }
}

// 64 codes of `bits` bits, at most 4, packed, and zeros behind them.
pub(crate) fn pack(codes: [u8; 64], bits: usize) -> [u8; 32]
    requires fact_1 { (length codes ≡ 64) × (bits ≤ 4) }
    requires fact_2 { ((i : ℕ) → get_or codes i 0 < 2 ^ bits) }
    ensures { result ≡ sets (replicate 32 0) 0 (bytes_of (8 * bits) (codes_number bits codes)) }
{
    let mut bytes = [0u8; 32];
    let mut held: u32 = 0;
    let mut filled: usize = 0;
    // Kept as it is: only some turns end a byte, so its place is counted with it.
    let mut end: usize = 0;
    for code in codes {
        held |= (code as u32) << (filled as u32);
        filled += bits;
        if 8 <= filled {
            store(&mut bytes, end, (held & 255) as u8);
            held >>= 8;
            filled -= 8;
            end += 1;
        }
    }
    bytes
}
