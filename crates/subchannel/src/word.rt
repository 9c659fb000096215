//! The word buffer: where the next byte of a word goes, and a whole word repaired in its place.
ghost use Rattle.std.specs.Prelude.{◌≡◌, ◌≤◌, ◌<◌, length, take};
ghost use Rattle.channel_spec.specs.Sender.{word_bytes};
ghost use Rattle.subchannel_spec.specs.Word.{condition, mend};
ghost use Rattle.subchannel.specs.Call.{word_at, mend_in};

use crate::sub::Sub;
use channel::Condition;

// Where the next byte goes behind so many: behind a whole word a new one begins.
pub(crate) fn place_in(count: usize) -> usize
    ensures { (result ≡ word_at count) × (result < word_bytes) }
{
    if count < Sub::WORD { count } else { 0 }
}

// The answer to a word, which is repaired in its place, as in `channel`, where there is one number of roots.
fn mend(parity: usize, word: &mut [u8]) -> Condition
    ensures { (result ≡ condition parity word.old) × (word.new ≡ mend parity word.old) }
{
    match repair::repair(parity, word) {
        Ok(found) => Condition::from(found),
        Err(_) => Condition::Beyond,
    }
}

// The answer to the word at the start of the buffer, which is repaired there.
pub(crate) fn mend_in(parity: usize, word: &mut [u8]) -> Condition
    requires { word_bytes ≤ length word.old }
    ensures { (result ≡ condition parity (take word_bytes word.old)) × (word.new ≡ mend_in parity word.old) }
{
    mend(parity, &mut word[..Sub::WORD])
}
