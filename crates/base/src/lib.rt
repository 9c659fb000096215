//! What several crates share: the refusals, the answer of a call that writes, the copying of bytes, the bytes before the first of a kind.
#![tactic(auto)]

ghost use Rattle.std.specs.Prelude.{◌≡◌, ◌≤◌, min, length};
ghost use Rattle.base.specs.Written.{copied};
ghost use Rattle.base.specs.Refusals.{Names};
ghost use Rattle.base.specs.UpTo.{up_to};

/// Why a call, a frame or a file is refused: the refusals of the paper and of its requests, by their numbers; 9 and 33 are not used.
#[derive(Clone, Copy, Debug, PartialEq, Eq)]
pub enum Refusal {
    /// A frame has more than 8,272 raw bytes.
    Raw = 1,
    /// The last raw byte is 7D.
    Unfinished = 2,
    /// 7D is followed by something other than 5E and 5D.
    Escape = 3,
    /// There are fewer than 8 bytes after undoing escapes.
    Short = 4,
    /// The check differs.
    Check = 5,
    /// The format byte is neither 0x21 nor 0x26.
    Format = 6,
    /// A frame's port is 7D00-7EFF.
    Port = 7,
    /// A frame's payload is above 8,192 bytes as escaped.
    Payload = 8,
    /// A count of the state is beyond its limit.
    State = 10,
    /// A lent buffer is too short.
    Buffer = 11,
    /// A frame's key length is outside 2 to 32, or too few bytes stand behind the key.
    Key = 12,
    /// A payload to be sent is empty.
    Empty = 20,
    /// A payload to be sent is above 8,192 bytes as escaped.
    Long = 21,
    /// A port to be sent to is 7D00-7EFF.
    Barred = 22,
    /// The output is shorter than the result.
    Output = 23,
    /// A format, key length or key number is not to be sent.
    SentKey = 24,
    /// R is above 64.
    Roots = 30,
    /// A message is not 255 - R bytes, or a word is not 255.
    Length = 31,
    /// The depth is above 64.
    Depth = 32,
    /// A new port finds no free place.
    Full = 40,
    /// A port to be forgotten is not held.
    Unheld = 41,
    /// A sub-channel is not one of those configured.
    SubChannel = 42,
    /// A table of ports has more than 16 places, or holds a port twice.
    Table = 43,
    /// A number of the sheet would pass 64 bits.
    Wide = 44,
    /// A unit is too long, has no room for its header, or too few bytes of it are lent.
    Unit = 50,
    /// A mix of content has no header sequence.
    Mix = 51,
    /// The header matches no sequence.
    Sequence = 52,
    /// The parts do not fit the unit, or told lengths disagree with its header.
    Parts = 53,
    /// The delimiter would be found elsewhere, or is not found.
    Delimiter = 54,
    /// A capture does not begin as one.
    Capture = 60,
    /// A record of a capture is cut short, or its lengths are unequal.
    Record = 61,
    /// A record of a capture is no packet that the sender would accept.
    NoPacket = 62,
}

/// A number that is no refusal's.
#[derive(Clone, Copy, Debug, PartialEq, Eq)]
pub struct NoRefusal(pub u8);

impl TryFrom<u8> for Refusal {
    type Error = NoRefusal;

    ghost try_from_gives = { Names };

    fn try_from(number: u8) -> Result<Refusal, NoRefusal> {
        match number {
            1 => Ok(Refusal::Raw),
            2 => Ok(Refusal::Unfinished),
            3 => Ok(Refusal::Escape),
            4 => Ok(Refusal::Short),
            5 => Ok(Refusal::Check),
            6 => Ok(Refusal::Format),
            7 => Ok(Refusal::Port),
            8 => Ok(Refusal::Payload),
            10 => Ok(Refusal::State),
            11 => Ok(Refusal::Buffer),
            12 => Ok(Refusal::Key),
            20 => Ok(Refusal::Empty),
            21 => Ok(Refusal::Long),
            22 => Ok(Refusal::Barred),
            23 => Ok(Refusal::Output),
            24 => Ok(Refusal::SentKey),
            30 => Ok(Refusal::Roots),
            31 => Ok(Refusal::Length),
            32 => Ok(Refusal::Depth),
            40 => Ok(Refusal::Full),
            41 => Ok(Refusal::Unheld),
            42 => Ok(Refusal::SubChannel),
            43 => Ok(Refusal::Table),
            44 => Ok(Refusal::Wide),
            50 => Ok(Refusal::Unit),
            51 => Ok(Refusal::Mix),
            52 => Ok(Refusal::Sequence),
            53 => Ok(Refusal::Parts),
            54 => Ok(Refusal::Delimiter),
            60 => Ok(Refusal::Capture),
            61 => Ok(Refusal::Record),
            62 => Ok(Refusal::NoPacket),
            _ => Err(NoRefusal(number)),
        }
    }
}

/// What a call that writes answers: so many bytes are written, or why it is refused.
pub type Written = Result<usize, Refusal>;

/// The smaller of two numbers.
// Stays beside std's `min`, which the code calls: its laws `least-determined` and `base-least-means` stand.
pub fn least(a: usize, b: usize) -> usize
    ensures { result ≡ min a b }
{
    a.min(b)
}

/// How many bytes stand before the first `c`.
pub fn up_to(bytes: &[u8], c: u8) -> usize
    ensures { (result ≡ length (up_to c bytes.now)) × (result ≤ length bytes.now) }
{
    bytes.iter().position(|b| *b == c).unwrap_or(bytes.len())
}

/// Stores the bytes of `src` from the start of `dst` on, as many as there is room for.
pub fn copy(src: &[u8], dst: &mut [u8])
    ensures { dst.new ≡ copied src.now dst.old }
{
    // By their numbers: of `copy_from_slice` the compiler makes calls of `memmove`, and the archive for C wants none.
    for i in 0..src.len().min(dst.len()) {
        dst[i] = src[i];
    }
}
