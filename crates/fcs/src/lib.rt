//! The check of a frame: the 16-bit FCS of RFC 1662.
#![tactic(auto)]

ghost use Rattle.std.specs.Prelude.{◌≡◌, ℕ, ◌≤◌, length};
ghost use Rattle.std.specs.List.{concat};
ghost use Rattle.fcs.specs.Fcs.{complement, entered, register, fcs, fresh, fed};

/// The check's register, for bytes that lie in several places.
#[derive(Clone, Copy)]
pub struct Register {
    pub bits: u16,
}

impl Register {
    // Sixteen bits, each 1.
    const ONES: u16 = 0xFFFF;

    /// The register before the first byte.
    pub fn fresh() -> Self
        ensures { result ≡ fresh }
    {
        Self { bits: Self::ONES }
    }

    /// The register after further bytes.
    pub fn feed(self, bytes: &[u8]) -> Self
        ensures { result ≡ fed self bytes.now }
    {
        let (eights, rest) = bytes.as_chunks::<8>();
        let bits = enter_eights(self.bits, eights);
        Self {
            bits: enter_each(bits, rest),
        }
    }

    /// The check of the bytes fed.
    pub fn check(self) -> u16
        ensures { result ≡ complement self.bits }
    {
        Self::ONES - self.bits
    }
}

// Eight bytes as one number, the first the lowest: its bits enter as theirs do.
fn eight(bytes: &[u8; 8]) -> u64
    ensures { (r : ℕ) → register r bytes.now ≡ entered 64 r result }
{
    u64::from_le_bytes(*bytes)
}

// 64 bits fall out of a register of 64: `y` has those that call for the polynomial, which is w divided by 1 + x^4 + x^11 + x^16. Each of the
// four lines makes the divisor its own square, whose terms stand twice as far apart, until only 1 is left of it below x^64.
fn fall(w: u64) -> u16
    ensures { result ≡ entered 64 w 0 }
{
    let a = w ^ (w << 4) ^ (w << 11) ^ (w << 16);
    let b = a ^ (a << 8) ^ (a << 22) ^ (a << 32);
    let c = b ^ (b << 16) ^ (b << 44);
    let y = c ^ (c << 32);
    (((y >> 60) ^ (y >> 53) ^ (y >> 48)) % 65536) as u16
}

// 64 bits enter the register at once.
fn enter_eight(bits: u16, number: u64) -> u16
    ensures { result ≡ entered 64 bits number }
{
    fall(number ^ u64::from(bits))
}

// One byte enters the register, its eight bits at once: `y` has the bits that call for the polynomial, which is added for each.
fn enter(register: u16, byte: u8) -> u16
    ensures { result ≡ entered 8 register byte }
{
    let mixed = register ^ u16::from(byte);
    let x = mixed % 256;
    let y = x ^ (x * 16 % 256);
    (mixed / 256) ^ ((y * 256) ^ (y * 8) ^ (y / 16))
}

// The bytes enter by eights, each falling out before the next.
fn singly(bits: u16, eights: &[[u8; 8]]) -> u16
    ensures { result ≡ register bits (concat eights.now) }
{
    let mut after = bits;
    for bytes in eights {
        after = enter_eight(after, eight(bytes));
    }
    after
}

// The same, while four eights wait and fall out at the end alone. The polynomial's sixteenth power is x^256 + x^192 + x^80 + 1: instead of
// falling out, the first eight is added 64, 176 and 256 bits behind its place.
fn folded(bits: u16, eights: &[[u8; 8]]) -> u16
    requires { 4 ≤ length eights.now }
    ensures { result ≡ register bits (concat eights.now) }
{
    let mut a = eight(&eights[0]) ^ u64::from(bits);
    let mut b = eight(&eights[1]);
    let mut c = eight(&eights[2]);
    let mut d = eight(&eights[3]);
    for bytes in &eights[4..] {
        let first = a;
        a = b ^ first;
        b = c ^ (first << 48);
        c = d ^ (first >> 16);
        d = eight(bytes) ^ first;
    }
    enter_eight(enter_eight(enter_eight(fall(a), b), c), d)
}

// The same.
fn enter_eights(bits: u16, eights: &[[u8; 8]]) -> u16
    ensures { result ≡ register bits (concat eights.now) }
{
    if eights.len() < 4 {
        return singly(bits, eights);
    }
    folded(bits, eights)
}

// The bytes enter one by one.
fn enter_each(bits: u16, bytes: &[u8]) -> u16
    ensures { result ≡ register bits bytes.now }
{
    let mut after = bits;
    for byte in bytes {
        after = enter(after, *byte);
    }
    after
}

/// The check of bytes.
pub fn fcs(bytes: &[u8]) -> u16
    ensures { result ≡ fcs bytes.now }
{
    Register::fresh().feed(bytes).check()
}
