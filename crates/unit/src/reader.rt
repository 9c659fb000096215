//! Units, read.
ghost use Rattle.std.specs.Prelude.{◌≡◌, false, ◌∷◌, [], ◌++◌, ◌+◌, ◌*◌, ◌-◌, ◌≤◌, ◌<◌, length, get_or, take, drop, find};
ghost use Rattle.std.proofs.Math.Seq.{paste};
ghost use Rattle.base.specs.Written.{as_written, outcome};
ghost use Rattle.unit_spec.specs.Bits.{bits};
ghost use Rattle.unit_spec.specs.Tables.{most_bytes, heads, start, step, payload, lent, unfit};
ghost use Rattle.unit_spec.specs.Unit.{opened};
ghost use Rattle.unit_spec.specs.Reading.{unwoven, header_of, payload_of, read_unit};
ghost use Rattle.unit.specs.Private.{headers, begun, delivered};

use crate::table::Header;
use crate::{bit, table};
use base::{Refusal, Written};

// A unit of `size` bits, all of whose bytes are there.
#[derive(Clone, Copy)]
struct Unit<'a> {
    size: usize,
    bytes: &'a [u8],
    ghost fit: { unfit size ≡ false },
    ghost whole: { lent size ≤ length bytes.now },
    ghost low: { payload size < most_bytes },
}

impl Unit<'_> {
    // Bit k of payload byte j.
    fn payload_bit(&self, j: usize, k: usize) -> u8
        requires { (j < payload self.now.size) × (k < 8) }
        ensures { (result
            ≡ get_or (unwoven (start self.now.size) (step self.now.size - 1) (heads self.now.size) (bits self.now.bytes.now)) (j * 8 + k) 0) × (result < 2) }
    {
        let t = j * 8 + k;
        let first = table::start(self.size);
        if t < first {
            return bit::bit_at(self.bytes, t);
        }
        let heads = table::heads(self.size);
        let gap = table::step(self.size) - 1;
        if gap == 0 {
            return bit::bit_at(self.bytes, t + heads);
        }
        let passed = heads.min((t - first) / gap + 1);
        bit::bit_at(self.bytes, t + passed)
    }

    // Payload byte j.
    // As `byte` of writer.rt: a trait for both would repeat both clauses, and each bit is known by its own call.
    fn payload_byte(&self, j: usize) -> u8
        requires { j < payload self.now.size }
        ensures { result ≡ get_or (payload_of self.now.size self.now.bytes.now) j 0 }
    {
        let a = self.payload_bit(j, 0);
        let b = self.payload_bit(j, 1);
        let c = self.payload_bit(j, 2);
        let d = self.payload_bit(j, 3);
        let e = self.payload_bit(j, 4);
        let f = self.payload_bit(j, 5);
        let g = self.payload_bit(j, 6);
        let h = self.payload_bit(j, 7);
        bit::byte(a, b, c, d, e, f, g, h)
    }

    // The header bits, as a number.
    fn header(&self) -> u32
        ensures { result ≡ header_of self.now.size self.now.bytes.now }
    {
        let start = table::start(self.size);
        let step = table::step(self.size);
        let mut v: u32 = 0;
        for k in 0..table::heads(self.size) {
            v = with_bit(v, bit::bit_at(self.bytes, start + k * step));
        }
        v
    }

    // The five payload bytes from `from` on, one by one: each is known by its own call.
    fn window(&self, from: usize) -> [u8; 5]
        requires { from + 5 ≤ payload self.now.size }
        ensures { result ≡ take 5 (drop from (payload_of self.now.size self.now.bytes.now)) }
    {
        let a = self.payload_byte(from);
        let b = self.payload_byte(from + 1);
        let c = self.payload_byte(from + 2);
        let d = self.payload_byte(from + 3);
        let e = self.payload_byte(from + 4);
        [a, b, c, d, e]
    }

    // How many bytes stand between the first delimiter and `end`, from payload byte `from` on. No delimiter, and none before `end` behind it, are the
    // same to the reader: 0.
    fn find(&self, delimiter: [u8; 5], from: usize, end: usize) -> usize
        requires { (from ≤ end) × (end ≤ payload self.now.size) }
        ensures { result ≡ length (opened delimiter (drop from (take end (payload_of self.now.size self.now.bytes.now)))) }
    {
        if end <= from + 5 {
            return 0;
        }
        let mut five = self.window(from);
        for behind in from + 5..end {
            if delimiter == five {
                return end - behind;
            }
            five = onward(five, self.payload_byte(behind));
        }
        0
    }

    // Stores n payload bytes from `from` on, at `at`.
    fn put(&self, from: usize, n: usize, out: &mut [u8], at: usize)
        requires { (from + n ≤ payload self.now.size) × (at + n ≤ length out.old) }
        ensures { out.new ≡ paste out.old at (drop from (payload_of self.now.size self.now.bytes.now)) n }
    {
        for (i, byte) in out[at..at + n].iter_mut().enumerate() {
            *byte = self.payload_byte(from + i);
        }
    }

    // Stores audio, o bytes before the fixed data, and fixed data, one behind the other.
    fn deliver(&self, audio: usize, o: usize, fixed: usize, out: &mut [u8]) -> Written
        requires { audio + o + fixed ≤ payload self.now.size }
        ensures { outcome (as_written result) out.new
            ≡ delivered (payload self.now.size) (payload_of self.now.size self.now.bytes.now) audio o fixed out.old }
    {
        let n = table::payload(self.size);
        let m = audio + o + fixed;
        if out.len() < m {
            return Err(Refusal::Output);
        }
        self.put(0, audio, out, 0);
        self.put(n - fixed - o, o, out, audio);
        self.put(n - fixed, fixed, out, audio + o);
        Ok(m)
    }
}

// A bit behind the bits of v.
fn with_bit(v: u32, b: u8) -> u32
    requires { (v < 16777216) × (b < 2) }
    ensures { result ≡ v * 2 + b }
{
    v * 2 + u32::from(b)
}

// Five bytes, one further on.
fn onward(five: [u8; 5], b: u8) -> [u8; 5]
    ensures { result ≡ drop 1 five ++ b ∷ [] }
{
    [five[1], five[2], five[3], five[4], b]
}

// The sequence of which h has the first n bits.
fn named(n: usize, h: u32) -> Option<Header>
    requires { (22 ≤ n) × (n ≤ 24) }
    ensures { result ≡ find (begun (24 - n) h) headers }
{
    let behind = 24 - n;
    let headers = [
        Header::Cw0,
        Header::Cw1,
        Header::Cw2,
        Header::Cw3,
        Header::Cw4,
    ];
    headers
        .iter()
        .copied()
        .find(|header| h == header.bits() >> behind)
}

/// Reads a unit of `size` bits: its `audio` audio bytes, its opportunistic data and its `fixed` fixed bytes, one behind the other.
pub fn read(
    size: usize,
    delimiter: [u8; 5],
    audio: usize,
    fixed: usize,
    unit: &[u8],
    out: &mut [u8],
) -> Written
    ensures { outcome (as_written result) out.new ≡ read_unit size delimiter audio fixed unit.now out.old }
{
    if table::unfit(size) || unit.len() < table::lent(size) {
        return Err(Refusal::Unit);
    }
    let unit = Unit { size, bytes: unit };
    let Some(header) = named(table::heads(size), unit.header()) else {
        return Err(Refusal::Sequence);
    };
    let mark = header.announced();
    if table::sequence(audio, fixed, mark) != Some(header) {
        return Err(Refusal::Parts);
    }
    let n = table::payload(size);
    if n < audio || n - audio < fixed {
        return Err(Refusal::Parts);
    }
    if mark == 0 {
        return unit.deliver(audio, 0, fixed, out);
    }
    let o = unit.find(delimiter, audio, n - fixed);
    if o == 0 {
        return Err(Refusal::Delimiter);
    }
    unit.deliver(audio, o, fixed, out)
}
