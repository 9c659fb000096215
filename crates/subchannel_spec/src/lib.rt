//! What fixed sub-channels send and what they make of received bytes, and the laws of both. Of code the types that it names, and whether settings
//! are within their limits. Read specs/.
#![tactic(auto)]

ghost use Rattle.std.specs.Prelude.{◌≡◌};
ghost use Rattle.subchannel_spec.specs.Settings.{within};

use channel_spec::{Block, Hunting};
use interleaver_spec::Matrix;
use parity::Word;

/// A group: the marker, and four words behind it.
#[derive(Clone, Copy)]
pub struct Group;

impl Group {
    /// What stands before each group.
    pub const MARKER: [u8; 4] = Hunting::MARKER;

    /// Bytes of a word.
    pub const WORD: usize = Block::WORD;

    /// Its words.
    pub const WORDS: usize = 4;

    /// Bytes of its words.
    pub const BYTES: usize = Self::WORDS * Self::WORD;

    /// Its bytes, the marker among them.
    pub const LENGTH: usize = 4 + Self::BYTES;
}

// A flag and no Option: callers hand settings in, and the laws speak of all their values, also of those that are not told.
/// What a sub-channel is told.
#[derive(Clone, Copy)]
pub struct Settings {
    pub told: bool,
    /// Parity bytes of a word.
    pub parity: usize,
    /// The interleaver's depth.
    pub depth: usize,
}

impl Settings {
    /// The most parity bytes of a word.
    pub const PARITY: usize = Word::MOST;

    /// The greatest depth.
    pub const DEPTH: usize = Matrix::DEEPEST;

    /// Whether configuring takes them.
    pub fn within(self) -> bool
        ensures { result ≡ within self }
    {
        self.parity <= Self::PARITY && self.depth <= Self::DEPTH
    }
}
