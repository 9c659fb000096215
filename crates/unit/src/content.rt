//! The payload of a unit: audio, zeros, delimiter and opportunistic data, fixed data.
ghost use Rattle.std.specs.Prelude.{◌≡◌, ◌≤◌, ◌<◌, get_or};
ghost use Rattle.unit_spec.specs.Bits.{bits};
ghost use Rattle.unit_spec.specs.Unit.{filled, laid_out};
ghost use Rattle.unit.specs.Private.{hidden_in};

use crate::bit;

/// A payload of `length` bytes, which hold its parts.
#[derive(Clone, Copy)]
pub(crate) struct Payload<'a> {
    pub(crate) length: usize,
    pub(crate) delimiter: [u8; 5],
    pub(crate) audio: &'a [u8],
    pub(crate) opportunistic: &'a [u8],
    pub(crate) fixed: &'a [u8],
    ghost room: { filled delimiter audio.now opportunistic.now fixed.now ≤ length },
}

impl Payload<'_> {
    // Byte j; 0 behind the last.
    fn byte(&self, j: usize) -> u8
        ensures { result ≡ get_or (laid_out self.now.length self.now.delimiter self.now.audio.now self.now.opportunistic.now self.now.fixed.now) j 0 }
    {
        if j < self.audio.len() {
            return self.audio[j];
        }
        let end = self.length - self.fixed.len();
        if end <= j {
            return at(self.fixed, j - end);
        }
        if self.opportunistic.is_empty() {
            return 0;
        }
        let begin = end - self.opportunistic.len();
        if begin <= j {
            return self.opportunistic[j - begin];
        }
        if begin - 5 <= j {
            return self.delimiter[j - (begin - 5)];
        }
        0
    }

    /// Bit t; 0 behind the last.
    pub(crate) fn bit(&self, t: usize) -> u8
        ensures { (result
            ≡ get_or (bits (laid_out self.now.length self.now.delimiter self.now.audio.now self.now.opportunistic.now self.now.fixed.now)) t 0) × (result < 2) }
    {
        bit::byte_bit(self.byte(t / 8), t % 8)
    }

    /// Whether the delimiter would be found earlier than it is written.
    pub(crate) fn is_hidden(&self) -> bool
        ensures { result ≡ hidden_in self.now.length self.now.delimiter self.now.audio.now self.now.opportunistic.now self.now.fixed.now }
    {
        if self.opportunistic.is_empty() {
            return false;
        }
        if self.length - self.audio.len() - self.fixed.len() - 5 == self.opportunistic.len() {
            return false;
        }
        self.delimiter == [0; 5]
    }
}

// Byte i; 0 behind the last.
fn at(bytes: &[u8], i: usize) -> u8
    ensures { result ≡ get_or bytes.now i 0 }
{
    bytes.get(i).copied().unwrap_or(0)
}
