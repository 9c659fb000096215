//! Units, written.
ghost use Rattle.std.specs.Prelude.{◌≡◌, false, ◌++◌, ◌+◌, ◌*◌, ◌≤◌, ◌<◌, ltb, eqb, get_or, length, take, drop};
ghost use Rattle.base.specs.Choice.{pick};
ghost use Rattle.base.specs.Written.{as_written, outcome};
ghost use Rattle.unit_spec.specs.Bits.{number};
ghost use Rattle.unit_spec.specs.Tables.{most_bytes, payload, lent, unfit};
ghost use Rattle.unit_spec.specs.Unit.{written};
ghost use Rattle.unit.specs.Private.{bits_of, bits_in, unit_in};

use crate::content::Payload;
use crate::table::Header;
use crate::{bit, table};
use base::{Refusal, Written};

// A unit of `size` bits, with its header and its payload.
#[derive(Clone, Copy)]
struct Unit<'a> {
    size: usize,
    header: Header,
    contents: Payload<'a>,
    ghost fit: { unfit size ≡ false },
    ghost all: { contents.length ≡ payload size },
    ghost low: { lent size ≤ most_bytes },
}

impl Unit<'_> {
    // Bit k of byte j.
    fn bit(&self, j: usize, k: usize) -> u8
        requires { (j < lent self.now.size) × (k < 8) }
        ensures { (result ≡ get_or (bits_in self.now.size (bits_of self.now.header) self.now.contents.delimiter self.now.contents.audio.now
            self.now.contents.opportunistic.now self.now.contents.fixed.now) (j * 8 + k) 0) × (result < 2) }
    {
        let i = j * 8 + k;
        let first = table::start(self.size);
        if i < first {
            return self.contents.bit(i);
        }
        let step = table::step(self.size);
        let heads = table::heads(self.size);
        let h = (i - first) / step;
        if heads <= h {
            return self.contents.bit(i - heads);
        }
        if (i - first) % step == 0 {
            return bit::bit(self.header.bits(), 24, h);
        }
        self.contents.bit(i - (h + 1))
    }

    // Byte j.
    // As `payload_byte` of reader.rt, and why twice is said there.
    fn byte(&self, j: usize) -> u8
        requires { j < lent self.now.size }
        ensures { result
            ≡ number 0 (take 8 (drop (j * 8) (bits_in self.now.size (bits_of self.now.header) self.now.contents.delimiter self.now.contents.audio.now
            self.now.contents.opportunistic.now self.now.contents.fixed.now))) }
    {
        let a = self.bit(j, 0);
        let b = self.bit(j, 1);
        let c = self.bit(j, 2);
        let d = self.bit(j, 3);
        let e = self.bit(j, 4);
        let f = self.bit(j, 5);
        let g = self.bit(j, 6);
        let h = self.bit(j, 7);
        bit::byte(a, b, c, d, e, f, g, h)
    }

    // Its bytes.
    fn spread(&self, out: &mut [u8])
        requires { length out.old ≡ lent self.now.size }
        ensures { out.new ≡ unit_in self.now.size (bits_of self.now.header) self.now.contents.delimiter self.now.contents.audio.now
            self.now.contents.opportunistic.now self.now.contents.fixed.now }
    {
        for (j, byte) in out.iter_mut().enumerate() {
            *byte = self.byte(j);
        }
    }
}

// Whether audio, opportunistic data with its delimiter and fixed data, of so many bytes, are more than n.
fn overfull(n: usize, audio: usize, opportunistic: usize, fixed: usize) -> bool
    ensures { result ≡ ltb n (audio + pick (eqb opportunistic 0) 0 (5 + opportunistic) + fixed) }
{
    if n < audio || n - audio < fixed {
        return true;
    }
    let left = n - audio - fixed;
    opportunistic > 0 && (left < 5 || left - 5 < opportunistic)
}

/// Writes a unit of `size` bits.
pub fn write(
    size: usize,
    delimiter: [u8; 5],
    audio: &[u8],
    opportunistic: &[u8],
    fixed: &[u8],
    out: &mut [u8],
) -> Written
    ensures { outcome (as_written result) out.new
        ≡ written size delimiter audio.now opportunistic.now fixed.now out.old }
{
    if table::unfit(size) {
        return Err(Refusal::Unit);
    }
    let Some(header) = table::sequence(audio.len(), fixed.len(), opportunistic.len()) else {
        return Err(Refusal::Mix);
    };
    let length = table::payload(size);
    if overfull(length, audio.len(), opportunistic.len(), fixed.len()) {
        return Err(Refusal::Parts);
    }
    let contents = Payload {
        length,
        delimiter,
        audio,
        opportunistic,
        fixed,
    };
    if contents.is_hidden() {
        return Err(Refusal::Delimiter);
    }
    let m = table::lent(size);
    if out.len() < m {
        return Err(Refusal::Output);
    }
    let unit = Unit {
        size,
        header,
        contents,
    };
    unit.spread(&mut out[..m]);
    Ok(m)
}
