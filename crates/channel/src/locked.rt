//! Lock: how far a word, its handing on and the next marker are.
ghost use Rattle.std.specs.Prelude.{◌≡◌};
ghost use Rattle.channel_spec.specs.Sender.{word_bytes};
ghost use Rattle.channel.specs.Call.{counts, sound_lock};

use channel_spec::Block;

/// Locked: bytes of a word, message bytes of it handed on, bytes of the next marker.
#[derive(Clone, Copy)]
pub struct Locked {
    pub word: usize,
    pub handed: usize,
    pub marker: usize,
}

impl Locked {
    // Behind a marker, and where lock is lost.
    pub(crate) fn fresh() -> Self
        ensures { result ≡ counts 0 0 0 }
    {
        Locked {
            word: 0,
            handed: 0,
            marker: 0,
        }
    }

    // A whole word: nothing of it is handed on yet.
    pub(crate) fn whole() -> Self
        ensures { result ≡ counts word_bytes 0 0 }
    {
        Locked {
            word: Block::WORD,
            handed: 0,
            marker: 0,
        }
    }

    // Whether no count is beyond its limit.
    pub(crate) fn sound(self) -> bool
        ensures { result ≡ sound_lock self }
    {
        self.word <= Block::WORD && self.marker <= 3 && self.handed <= Block::MESSAGE
    }
}
