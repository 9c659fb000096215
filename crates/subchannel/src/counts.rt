//! What a sub-channel counts, and its limits.
ghost use Rattle.std.specs.Prelude.{◌≡◌, ◌≤◌};
ghost use Rattle.subchannel.specs.Call.{counts, sound_counts};

use crate::sub::Sub;

/// Bytes of the group, bytes of the next marker; bytes in the word buffer, message bytes of it handed on.
#[derive(Clone, Copy)]
pub struct Counts {
    pub group: usize,
    pub marker: usize,
    pub word: usize,
    pub handed: usize,
}

impl Counts {
    // At the start, behind the first marker, and where lock is lost.
    pub(crate) fn zero() -> Self
        ensures { result ≡ counts 0 0 0 0 }
    {
        Counts {
            group: 0,
            marker: 0,
            word: 0,
            handed: 0,
        }
    }

    // Whether none is beyond its limit.
    pub(crate) fn sound(self, parity: usize) -> bool
        requires { parity ≤ 255 }
        ensures { result ≡ sound_counts parity self }
    {
        self.group <= Sub::GROUP
            && self.marker <= 3
            && self.word <= Sub::WORD
            && self.handed <= Sub::WORD - parity
    }
}
