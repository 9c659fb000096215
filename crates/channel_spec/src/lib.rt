//! What the opportunistic channel's bytes mean, as they are sent and as they are received without a limit, and the laws of whole streams and
//! of altered blocks. Of code the types that it names, the four hunted bytes, and how a word came in; `channel_sender` sends, `channel` receives. Read specs/.
#![tactic(auto)]

ghost use Rattle.std.specs.Prelude.{◌≡◌, Ok};
ghost use Rattle.repair.specs.Mended.{as_mended};
ghost use Rattle.channel_spec.specs.Meaning.{condition_by, shift, is_marker, zeros};

use packet_spec::Judged;
use parity::Word;
use repair::Mended;

// Four fields and not an array: in the definitions that speak of them an array is a list of any length, and each law would ask for four.
/// Hunting: the last four bytes, the oldest first.
#[derive(Clone, Copy)]
pub struct Hunting {
    pub a: u8,
    pub b: u8,
    pub c: u8,
    pub d: u8,
}

/// How a whole word came in.
// The same three as repair's `Mended`, and a type of its own: a block's answer names this one, in definitions and laws (`condition_by`).
#[derive(Clone, Copy)]
pub enum Condition {
    Clean,
    /// So many bytes were put right.
    Repaired(usize),
    /// It is beyond repair, and left as it came.
    Beyond,
}

/// By what repair found of the word.
impl From<Mended> for Condition {
    ghost from_gives = { λ found condition. condition ≡ condition_by (as_mended (Ok found)) };

    fn from(found: Mended) -> Condition {
        match found {
            Mended::Clean => Condition::Clean,
            Mended::Repaired(n) => Condition::Repaired(n),
            Mended::Beyond => Condition::Beyond,
        }
    }
}

/// What a call answers.
// `More` is one of four, as the definition has it (`answered`): an `Option` around the other three would be matched twice by each caller.
#[derive(Clone, Copy)]
pub enum Answer {
    /// More is wanted.
    More,
    /// A closed frame, or the call refused.
    Said(Judged),
    /// A whole word.
    Block(Condition),
    LockLost,
}

/// A block: the marker, and a word behind it.
#[derive(Clone, Copy)]
pub struct Block;

impl Block {
    /// Bytes of a word.
    pub const WORD: usize = Word::LENGTH;

    /// Its parity bytes.
    pub const PARITY: usize = 32;

    /// Its message bytes.
    pub const MESSAGE: usize = Self::WORD - Self::PARITY;

    /// Where they stand in a block.
    pub const PARITY_AT: usize = 4 + Self::MESSAGE;

    /// Bytes of a block.
    pub const LENGTH: usize = 4 + Self::WORD;
}

impl Hunting {
    /// What is hunted for.
    pub const MARKER: [u8; 4] = [0x7D, 0x3A, 0xE2, 0x42];

    /// Four bytes of zero.
    pub fn fresh() -> Self
        ensures { result ≡ zeros }
    {
        Hunting {
            a: 0,
            b: 0,
            c: 0,
            d: 0,
        }
    }

    /// One byte more among the last four.
    pub fn shift(self, x: u8) -> Self
        ensures { result ≡ shift self x }
    {
        Hunting {
            a: self.b,
            b: self.c,
            c: self.d,
            d: x,
        }
    }

    /// Whether the last four are the marker.
    pub fn at_marker(self) -> bool
        ensures { result ≡ is_marker self }
    {
        // The newest byte first, and not array by array: so hunting takes half the time.
        let [a, b, c, d] = Self::MARKER;
        self.d == d && self.c == c && self.b == b && self.a == a
    }
}
