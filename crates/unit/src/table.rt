//! Tables 5-3 and 5-4 of source document 003.
ghost use Rattle.std.specs.Prelude.{◌≡◌, ◌≤◌, ◌<◌};
ghost use Rattle.unit_spec.specs.Tables.{most, most_bytes, sequence, heads, start, step, payload, lent, unfit, announced};
ghost use Rattle.unit.specs.Private.{bits_of, code};

// Lengths of units, in bits.
#[derive(Clone, Copy)]
struct Length;

impl Length {
    // The longest unit.
    const MOST: usize = 146176;
    // From here on the header lies at the end.
    const LONG: usize = 72000;
}

/// The header sequences of table 5-3 that are not reserved, by their 24 bits.
#[derive(Clone, Copy, PartialEq, Eq)]
pub enum Header {
    /// Audio alone.
    Cw0 = 0x38D8D3,
    /// Audio and opportunistic data.
    Cw1 = 0xCE3634,
    /// Audio and fixed data.
    Cw2 = 0xE3634C,
    /// All three.
    Cw3 = 0x8D8D33,
    /// Fixed data alone.
    Cw4 = 0x3634CE,
}

impl Header {
    /// Its 24 bits.
    // By this name and no `From`: that they are its bits is what callers want to read.
    pub fn bits(self) -> u32
        ensures { result ≡ bits_of self }
    {
        self as u32
    }

    /// 1 where it announces opportunistic data, else 0: a length, for `sequence`, which looks only at whether there is any.
    // A number and no bool: the definition `announced` is that number.
    pub fn announced(self) -> usize
        ensures { result ≡ announced (bits_of self) }
    {
        match self {
            Header::Cw1 | Header::Cw3 => 1,
            Header::Cw0 | Header::Cw2 | Header::Cw4 => 0,
        }
    }
}

/// How many header bits a unit has.
pub fn heads(size: usize) -> usize
    ensures { result ≡ heads size }
{
    match size % 8 {
        0 => 24,
        7 => 23,
        _ => 22,
    }
}

/// How many bits stand before the first header bit.
pub fn start(size: usize) -> usize
    ensures { result ≡ start size }
{
    if size < Length::LONG {
        return 120;
    }
    match size % 8 {
        0 => size - 30000,
        _ => size / 8 * 8 - 29999,
    }
}

/// How many bits it is from one header bit to the next; 0 where there is no room for them.
// No Option: 0 is what the division gives, and no distance; `unfit` asks for it once, and every other caller has a unit.
pub fn step(size: usize) -> usize
    ensures { result ≡ step size }
{
    if size < Length::LONG {
        let behind = (size / 8).saturating_sub(14);
        return match size % 8 {
            0 => size.saturating_sub(120) / 24,
            7 => behind / 23 * 8,
            _ => behind / 22 * 8,
        };
    }
    match size % 8 {
        0 => 1248,
        7 => 1304,
        _ => 1360,
    }
}

/// Whether there is no unit of this length.
pub fn unfit(size: usize) -> bool
    ensures { result ≡ unfit size }
{
    Length::MOST < size || step(size) == 0
}

/// The payload bytes of a unit.
pub fn payload(size: usize) -> usize
    ensures { result ≡ payload size }
{
    size.saturating_sub(heads(size)) / 8
}

/// The bytes that a unit takes.
pub(crate) fn lent(size: usize) -> usize
    requires { size ≤ most }
    ensures { (result ≡ lent size) × (result ≤ most_bytes) }
{
    size.div_ceil(8)
}

/// The header sequence of a mix of content, by the lengths of its parts.
pub fn sequence(audio: usize, fixed: usize, opportunistic: usize) -> Option<Header>
    ensures { code result ≡ sequence audio fixed opportunistic }
{
    match (audio, fixed, opportunistic) {
        (0, 0, _) => None,
        (0, _, 0) => Some(Header::Cw4),
        (0, _, _) => None,
        (_, 0, 0) => Some(Header::Cw0),
        (_, 0, _) => Some(Header::Cw1),
        (_, _, 0) => Some(Header::Cw2),
        _ => Some(Header::Cw3),
    }
}
