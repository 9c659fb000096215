//! A whole word: checked where it stands, repaired in the word buffer.
ghost use Rattle.std.specs.Prelude.{◌≡◌, ◌+◌, ◌≤◌, length, take, drop};
ghost use Rattle.word_spec.specs.Word.{clean};
ghost use Rattle.channel_spec.specs.Sender.{parity_bytes, word_bytes};
ghost use Rattle.channel_spec.specs.Meaning.{condition, mend};
ghost use Rattle.channel.specs.Call.{mend_in};

use channel_spec::{Block, Condition};
use parity::Checked;

// Whether a word is clean.
fn is_clean(word: &[u8]) -> bool
    requires { length word.now ≡ word_bytes }
    ensures { result ≡ clean parity_bytes word.now }
{
    matches!(parity::check(Block::PARITY, word), Ok(Checked::Clean))
}

// Whether the word is clean whose last n bytes stand in the piece from `at` on: where those are all its bytes, it is checked there.
// That the lent buffer holds a word, `settle` and `fill` ask too: each function over a struct of it would have to say that it is the same still.
fn is_clean_last(word: &[u8], piece: &[u8], at: usize, n: usize) -> bool
    requires word_bytes_in_bounds { word_bytes ≤ length word.now }
    requires n_in_bounds { at + n ≤ length piece.now }
    requires piece_value { n ≡ word_bytes → take word_bytes (drop at piece.now) ≡ take word_bytes word.now }
    ensures { result ≡ clean parity_bytes (take word_bytes word.now) }
{
    if n == Block::WORD {
        let end = at + Block::WORD;
        return is_clean(&piece[at..end]);
    }
    is_clean(&word[0..Block::WORD])
}

// The answer to a word, which is repaired in its place. `subchannel` has such lines for any number of roots: each names its own channel's definitions.
fn mend(word: &mut [u8]) -> Condition
    requires { length word.old ≡ word_bytes }
    ensures { (result ≡ condition word.old) × (word.new ≡ mend word.old) }
{
    match repair::repair(Block::PARITY, word) {
        Ok(found) => Condition::from(found),
        // not refused: the word is one
        Err(_) => Condition::Beyond,
    }
}

// The answer to the word at the start of the buffer: a clean one costs the check alone.
pub(crate) fn settle(word: &mut [u8], piece: &[u8], at: usize, n: usize) -> Condition
    requires word_bytes_in_bounds { word_bytes ≤ length word.old }
    requires n_in_bounds { at + n ≤ length piece.now }
    requires piece_value { n ≡ word_bytes → take word_bytes (drop at piece.now) ≡ take word_bytes word.old }
    ensures { (result ≡ condition (take word_bytes word.old)) × (word.new ≡ mend_in word.old) }
{
    if is_clean_last(word, piece, at, n) {
        return Condition::Clean;
    }
    mend(&mut word[0..Block::WORD])
}
