//! A capture, read: its state by value, and the store lent.
ghost use Rattle.std.specs.Prelude.{◌≡◌, true, ◌+◌, ◌≤◌, ◌<◌, [], ◌∷◌, length, set, Some};
ghost use Rattle.capture_spec.specs.File.{header};
ghost use Rattle.capture_spec.specs.Meaning.{entry_limit, four_at};
ghost use Rattle.std.proofs.Math.Option.{none};
ghost use Rattle.capture.specs.declared.reader.CaptureReader.TheVariants.{Header};
ghost use Rattle.capture.specs.Call.{held, next, header_by, headed_by, head_by, whole_by, record_by, take_byte};
ghost use Rattle.capture.specs.Call.{read_on, read_call, sound, ending, as_ended, finishing, ReadIs};
ghost use Rattle.base.specs.Refusals.{number};
ghost use Rattle.capture.specs.Private.{step_of, StepIs};

use crate::entry;
use crate::writer::HEADER;
use base::Refusal;
use packet::{Judged, Packet};

/// How far a capture is read.
#[derive(Clone, Copy)]
pub enum CaptureReader {
    /// So many bytes of the header are right.
    Header(usize),
    /// So many bytes of a record's head, which the store begins with.
    Head(usize),
    /// Of a record of so many bytes so many, which the store begins with as far as it has room.
    Record { size: usize, done: usize },
    /// Behind a fault, of this number: callers hand it in, so it may be any.
    Behind(u8),
}

/// The result of a call.
#[derive(Clone, Copy)]
pub struct Read {
    /// A packet, or why no more is read; none where more is wanted.
    pub heard: Option<Judged>,
    /// Bytes of the piece taken.
    pub taken: usize,
    pub capture: CaptureReader,
}

// What a byte gives: an answer, if there is one, and the state behind it.
#[derive(Clone, Copy)]
struct Step {
    heard: Option<Judged>,
    capture: CaptureReader,
}

// The store behind a byte: it has room for a whole packet.
#[derive(Clone, Copy)]
struct Store<'a> {
    bytes: &'a [u8],
    ghost long: { entry_limit ≤ length bytes.now },
}

// The number at i.
fn four_at(bytes: &[u8], i: usize) -> usize
    requires { i + 3 < length bytes.now }
    ensures { result ≡ four_at bytes.now i }
{
    u32::from_le_bytes([bytes[i], bytes[i + 1], bytes[i + 2], bytes[i + 3]]) as usize
}

// The state behind an answer.
fn next(judged: Judged) -> CaptureReader
    ensures { result ≡ next judged }
{
    match judged {
        Judged::Packet(_) => CaptureReader::Head(0),
        Judged::Refused(n) => CaptureReader::Behind(n),
        Judged::Broken(_) => CaptureReader::Behind(Refusal::Escape as u8),
    }
}

impl Step {
    // An answer.
    fn said(judged: Judged) -> Self
        ensures { result ≡ record { heard = Some judged; capture = next judged } }
    {
        Step {
            heard: Some(judged),
            capture: next(judged),
        }
    }

    // None.
    fn on(capture: CaptureReader) -> Self
        ensures { result ≡ step_of (none, capture) }
    {
        Step {
            heard: None,
            capture,
        }
    }
}

// Stores a byte, where there is room.
fn keep(store: &mut [u8], at: usize, b: u8)
    ensures { store.new ≡ set store.old at b }
{
    if at < store.len() {
        store[at] = b;
    }
}

// A byte of the header.
fn in_header(k: usize, b: u8) -> Step
    requires { k < 24 }
    ensures { result ≡ step_of (header_by k b) }
{
    if b != HEADER[k] {
        return Step::said(Judged::Refused(Refusal::Capture as u8));
    }
    if k + 1 == CaptureReader::HEADER {
        return Step::on(CaptureReader::Head(0));
    }
    Step::on(CaptureReader::Header(k + 1))
}

impl Store<'_> {
    // A whole head.
    fn headed(self) -> Step
        ensures { result ≡ step_of (headed_by self.entry.bytes.now) }
    {
        let n = four_at(self.bytes, 8);
        if n != four_at(self.bytes, 12) {
            return Step::said(Judged::Refused(Refusal::Record as u8));
        }
        if n == 0 {
            return Step::said(Judged::Refused(Refusal::NoPacket as u8));
        }
        Step::on(CaptureReader::Record { size: n, done: 0 })
    }

    // A byte of a head, stored.
    fn in_head(self, k: usize) -> Step
        requires { k < 16 }
        ensures { result ≡ step_of (head_by k self.entry.bytes.now) }
    {
        if k + 1 == CaptureReader::HEAD {
            return self.headed();
        }
        Step::on(CaptureReader::Head(k + 1))
    }

    // A whole record.
    fn whole(self, n: usize) -> Step
        ensures { result ≡ step_of (whole_by n self.entry.bytes.now) }
    {
        if CaptureReader::STORED < n {
            return Step::said(Judged::Refused(Refusal::NoPacket as u8));
        }
        Step::said(entry::told(&self.bytes[..n]))
    }

    // A byte of a record, stored.
    fn in_record(self, size: usize, done: usize) -> Step
        requires { done < size }
        ensures { result ≡ step_of (record_by size done self.entry.bytes.now) }
    {
        if done + 1 == size {
            return self.whole(size);
        }
        Step::on(CaptureReader::Record {
            size,
            done: done + 1,
        })
    }
}

// One byte. That the state is sound, read_on and ending ask too: a struct that says it would be made anew behind every byte.
fn take(capture: CaptureReader, store: &mut [u8], b: u8) -> Step
    requires { (sound capture ≡ true) × (entry_limit ≤ length store.old) }
    ensures { StepIs (take_byte (held capture store.old) b) result store.new }
{
    match capture {
        CaptureReader::Header(k) => in_header(k, b),
        CaptureReader::Head(k) => {
            keep(store, k, b);
            Store { bytes: store }.in_head(k)
        }
        CaptureReader::Record { size, done } => {
            keep(store, done, b);
            Store { bytes: store }.in_record(size, done)
        }
        CaptureReader::Behind(f) => Step::on(CaptureReader::Behind(f)),
    }
}

// Whether no count is beyond its limit.
fn is_sound(capture: CaptureReader) -> bool
    ensures { result ≡ sound capture }
{
    match capture {
        CaptureReader::Header(k) => k < CaptureReader::HEADER,
        CaptureReader::Head(k) => k < CaptureReader::HEAD,
        CaptureReader::Record { size, done } => done < size,
        CaptureReader::Behind(f) => Refusal::Capture as u8 <= f && f <= Refusal::NoPacket as u8,
    }
}

// The refusal that a fault's number is. Not by `Refusal::try_from`: that would leave a case here that never comes.
fn fault(f: u8) -> Refusal
    requires { (60 ≤ f) × (f ≤ 62) }
    ensures { number result ≡ f }
{
    match f {
        60 => Refusal::Capture,
        61 => Refusal::Record,
        _ => Refusal::NoPacket,
    }
}

// What the end of the file says.
fn ending(capture: CaptureReader) -> Result<(), Refusal>
    requires { sound capture ≡ true }
    ensures { as_ended result ≡ ending capture }
{
    match capture {
        CaptureReader::Header(_) => Err(Refusal::Capture),
        CaptureReader::Head(0) => Ok(()),
        CaptureReader::Head(_) | CaptureReader::Record { .. } => Err(Refusal::Record),
        CaptureReader::Behind(f) => Err(fault(f)),
    }
}

impl CaptureReader {
    /// Bytes before the first record.
    pub const HEADER: usize = 24;

    /// Bytes of a record before its own.
    pub const HEAD: usize = 16;

    /// Bytes of a packet, format byte to last payload byte, at most: the store has at least so many.
    pub const STORED: usize = Packet::OPENING + Packet::PAYLOAD;

    /// Bytes of a record, at most.
    pub const ENTRY: usize = Self::HEAD + Self::STORED;

    /// Before the first byte.
    pub fn fresh() -> Self
        ensures { result ≡ Header 0 }
    {
        CaptureReader::Header(0)
    }

    // The bytes of a piece, up to the first answer.
    fn read_on(self, store: &mut [u8], piece: &[u8]) -> Read
        requires { (sound self ≡ true) × (entry_limit ≤ length store.old) }
        ensures { ReadIs (read_on (held self store.old) piece.now) result store.new }
    {
        let mut capture = self;
        for (i, b) in piece.iter().enumerate() {
            let step = take(capture, store, *b);
            capture = step.capture;
            if step.heard.is_some() {
                return Read {
                    heard: step.heard,
                    taken: i + 1,
                    capture,
                };
            }
        }
        Read {
            heard: None,
            taken: piece.len(),
            capture,
        }
    }

    // As `read` of `stream`, of another state and buffer: a trait for both would say each test, and what it refuses, once more.
    /// One call: at most one answer, and no byte behind the one that caused it is taken.
    pub fn read(self, store: &mut [u8], piece: &[u8]) -> Read
        ensures { ReadIs (read_call (held self store.old) piece.now) result store.new }
    {
        if !is_sound(self) {
            return Read {
                heard: Some(Judged::Refused(Refusal::State as u8)),
                taken: 0,
                capture: self,
            };
        }
        if store.len() < CaptureReader::STORED {
            return Read {
                heard: Some(Judged::Refused(Refusal::Buffer as u8)),
                taken: 0,
                capture: self,
            };
        }
        self.read_on(store, piece)
    }

    /// The end of the file: it ends behind its header or behind a record, or why it, or the call, is refused.
    pub fn finish(self) -> Result<(), Refusal>
        ensures { as_ended result ≡ finishing self }
    {
        if !is_sound(self) {
            return Err(Refusal::State);
        }
        ending(self)
    }
}
