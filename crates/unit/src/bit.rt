//! Bytes as bits, the high bit first.
ghost use Rattle.std.specs.Prelude.{◌≡◌, ◌∷◌, [], ◌≤◌, ◌<◌, get_or};
ghost use Rattle.unit_spec.specs.Bits.{digits, bits, number};

/// Bit k of the n low bits of v.
// A bit is a number and no type: the definitions' bits are 0 and 1, and each is summed in the next line.
pub(crate) fn bit(v: u32, n: usize, k: usize) -> u8
    requires { (k < n) × (n ≤ 24) }
    ensures { (result ≡ get_or (digits n v) k 0) × (result < 2) }
{
    let behind = n - 1 - k;
    ((v >> behind) % 2) as u8
}

/// Bit k of a byte.
// `k < 8`, here and of units, is no type: each caller writes the number out, or divides for it, and it is a number again in the next line.
pub(crate) fn byte_bit(b: u8, k: usize) -> u8
    requires { k < 8 }
    ensures { (result ≡ get_or (digits 8 b) k 0) × (result < 2) }
{
    bit(u32::from(b), 8, k)
}

/// Bit t of bytes; 0 behind them.
pub fn bit_at(bytes: &[u8], t: usize) -> u8
    ensures { (result ≡ get_or (bits bytes.now) t 0) × (result < 2) }
{
    byte_bit(bytes.get(t / 8).copied().unwrap_or(0), t % 8)
}

/// Eight bits as a byte. They are handed in one by one, since each is known to be a bit by its own call: of an array, or of a closure that gives
/// them, the same would have to be said of every place, and be taken apart here.
pub(crate) fn byte(a: u8, b: u8, c: u8, d: u8, e: u8, f: u8, g: u8, h: u8) -> u8
    requires { (a < 2) × (b < 2) × (c < 2) × (d < 2) × (e < 2) × (f < 2) × (g < 2) × (h < 2) }
    ensures { result ≡ number 0 (a ∷ b ∷ c ∷ d ∷ e ∷ f ∷ g ∷ h ∷ []) }
{
    a * 128 + b * 64 + c * 32 + d * 16 + e * 8 + f * 4 + g * 2 + h
}
