//! The first byte of a kind, sought sixteen bytes at a time.
ghost use Rattle.std.specs.Prelude.{◌≡◌, ◌+◌, ◌≤◌, ◌<◌, eqb, ltb, length, take, drop};
ghost use Rattle.base.specs.Choice.{pick};
ghost use Rattle.base.specs.UpTo.{up_to};

// Whether `c` is among sixteen bytes. There is no way out of the loop, so that the compiler looks at all of them at once.
fn among(bytes: &[u8; 16], c: u8) -> bool
    ensures { result ≡ ltb (length (up_to c bytes.now)) 16 }
{
    let mut found = false;
    for b in bytes {
        found |= *b == c;
    }
    found
}

// Passes over bytes that are not `c`, sixteen at a time; how many. Fewer than sixteen are then left before the first `c`.
fn passed(bytes: &[u8], c: u8) -> usize
    ensures { (result ≤ length (up_to c bytes.now)) × (length (up_to c bytes.now) < result + 16) }
{
    let (chunks, _) = bytes.as_chunks::<16>();
    let n = chunks
        .iter()
        .position(|chunk| among(chunk, c))
        .unwrap_or(chunks.len());
    16 * n
}

// How many of the sixteen bytes from `at` on stand before the first `c`, by a bit for each: the compiler makes all the bits at once. By places and
// no chain: of an iterator that runs backwards a loop knows only the items that it gave, and not which are left.
fn within(bytes: &[u8], at: usize, c: u8) -> usize
    requires { at + 16 ≤ length bytes.now }
    ensures { result ≡ length (up_to c (take 16 (drop at bytes.now))) }
{
    let mut bits: u16 = 0;
    for i in (0..16).rev() {
        bits = bits * 2 + u16::from(bytes[at + i] == c);
    }
    bits.trailing_zeros() as usize
}

/// How many bytes stand before the first `c`: `base::up_to`, for long runs. The last bytes are looked at with others that are passed.
pub fn up_to(bytes: &[u8], c: u8) -> usize
    ensures { (result ≡ length (up_to c bytes.now)) × (result ≤ length bytes.now) }
{
    if bytes.len() < 16 {
        return base::up_to(bytes, c);
    }
    let at = passed(bytes, c).min(bytes.len() - 16);
    at + within(bytes, at, c)
}
