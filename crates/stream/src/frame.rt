//! The frame reader: its state by value, and the receive buffer lent.
ghost use Rattle.std.specs.Prelude.{◌≡◌, true, false, suc, ◌+◌, ◌≤◌, ◌<◌, length, drop};
ghost use Rattle.std.proofs.lemmas.List.Edits.{sets};
ghost use Rattle.packet_spec.specs.Contents.{raw_limit, key_at, payload_at};
ghost use Rattle.packet_spec.specs.Frame.{part};
ghost use Rattle.stream.specs.Call.{held, fresh, begun, read_on, read_call, sound, ReadIs};
ghost use Rattle.stream.specs.Private.{before, counted, looked, gathered, closes, TurnIs};

use base::Refusal;
use packet::{Delivery, Judged, Packet};

// A flag and counts and not an Option of them: callers hand the state in, also from C, and the laws speak of each value that it can have.
/// The reader's state.
#[derive(Clone, Copy)]
pub struct FrameReader {
    /// A flag was seen.
    pub opened: bool,
    /// Raw bytes behind it; one more than the limit means "over".
    pub raw: usize,
    /// How many of them are stored.
    pub stored: usize,
    /// The place of the first wrong byte behind 7D among them; 0 where there is none, also in a state that a C program hands in.
    pub place: usize,
}

/// The result of a call.
#[derive(Clone, Copy)]
pub struct Read {
    /// A closed frame, or the call refused; none where more is wanted.
    pub heard: Option<Judged>,
    /// Bytes of the piece taken.
    pub taken: usize,
    pub frame: FrameReader,
}

// Stores the bytes before the first flag from `at` on; how many.
fn store(recv: &mut [u8], at: usize, bytes: &[u8]) -> usize
    requires { at + length bytes.now ≤ length recv.old }
    ensures { (result ≡ length (before bytes.now)) × (recv.new ≡ sets recv.old at (before bytes.now)) }
{
    let n = packet::up_to(bytes, FrameReader::FLAG);
    base::copy(&bytes[..n], &mut recv[at..]);
    n
}

impl FrameReader {
    /// The flag, which stands between frames.
    pub const FLAG: u8 = Packet::FLAG;

    /// Raw bytes stored, at most.
    pub const RAW: usize = Packet::RAW;

    /// The raw count that means "over".
    pub const OVER: usize = Packet::OVER;

    /// The place of the last raw byte that is stored.
    pub const PLACE: usize = Self::RAW - 1;

    /// Waiting for a flag.
    pub fn fresh() -> Self
        ensures { result ≡ fresh }
    {
        FrameReader {
            opened: false,
            raw: 0,
            stored: 0,
            place: 0,
        }
    }

    // Behind a flag.
    fn begun() -> Self
        ensures { result ≡ begun }
    {
        FrameReader {
            opened: true,
            ..FrameReader::fresh()
        }
    }

    /// Whether no count is beyond its limit, nor the place.
    pub fn sound(self) -> bool
        ensures { result ≡ sound self }
    {
        self.stored == self.raw.min(FrameReader::RAW)
            && self.raw <= FrameReader::OVER
            && self.place <= FrameReader::PLACE
    }

    // Counted after n raw bytes more.
    fn counted(self, n: usize) -> Self
        requires { self.raw ≤ suc raw_limit }
        ensures { result ≡ counted self n }
    {
        if !self.opened {
            return self;
        }
        let raw = self.raw + n.min(FrameReader::OVER - self.raw);
        FrameReader {
            raw,
            stored: raw.min(FrameReader::RAW),
            ..self
        }
    }

    // The stored bytes from a place on are looked at: the first wrong one behind 7D is remembered.
    fn looked(self, recv: &[u8], from: usize) -> Self
        requires { self.stored ≤ length recv.now }
        ensures { result ≡ looked self recv.now from }
    {
        if self.place != 0 {
            return self;
        }
        FrameReader {
            place: packet::wrong_behind(&recv[..self.stored], from),
            ..self
        }
    }

    // Takes the bytes before the first flag: those of a frame are stored; how many. That the buffer has room, turn and read_on ask too: a struct
    // over the lent buffer would have each contract say that it keeps the reference, which is more than the fact that goes.
    fn gather(self, recv: &mut [u8], bytes: &[u8]) -> usize
        requires { raw_limit ≤ length recv.old }
        ensures { (result ≡ length (before bytes.now)) × (recv.new ≡ gathered self (before bytes.now) recv.old) }
    {
        if !self.opened {
            return packet::up_to(bytes, FrameReader::FLAG);
        }
        let at = self.raw.min(FrameReader::RAW);
        let n = (FrameReader::RAW - at).min(bytes.len());
        let k = store(recv, at, &bytes[..n]);
        if k < n {
            return k;
        }
        n + packet::up_to(&bytes[n..], FrameReader::FLAG)
    }

    // Whether a flag closes a frame here.
    fn closes(self) -> bool
        ensures { result ≡ closes self }
    {
        self.opened && self.raw != 0
    }

    // The bytes up to the first flag, and the flag.
    fn turn(self, recv: &mut [u8], bytes: &[u8]) -> Read
        requires { (sound self ≡ true) × (raw_limit ≤ length recv.old) × (0 < length bytes.now) }
        ensures { TurnIs (held self recv.old) bytes.now result recv.new }
    {
        let n = self.gather(recv, bytes);
        let frame = self.counted(n);
        if n == bytes.len() {
            return Read {
                heard: None,
                taken: n,
                frame: frame.looked(recv, self.stored),
            };
        }
        let behind = Read {
            heard: None,
            taken: n + 1,
            frame: FrameReader::begun(),
        };
        if !frame.closes() {
            return behind;
        }
        Read {
            heard: Some(packet::judge(recv, frame.raw)),
            ..behind
        }
    }

    // The bytes of a piece, up to the first answer.
    fn read_on(self, recv: &mut [u8], piece: &[u8]) -> Read
        requires { (sound self ≡ true) × (raw_limit ≤ length recv.old) }
        ensures { ReadIs (read_on (held self recv.old) piece.now) result recv.new }
    {
        let mut frame = self;
        // No `for`, and no rest that shrinks: what a turn takes is known only behind it, and the sum of it is what the call answers.
        let mut at: usize = 0;
        while at < piece.len() {
            let turn = frame.turn(recv, &piece[at..]);
            at += turn.taken;
            frame = turn.frame;
            if turn.heard.is_some() {
                return Read { taken: at, ..turn };
            }
        }
        Read {
            heard: None,
            taken: at,
            frame,
        }
    }

    /// One call: at most one answer, and no byte behind the one that caused it is taken.
    pub fn read(self, recv: &mut [u8], piece: &[u8]) -> Read
        ensures { ReadIs (read_call (held self recv.old) piece.now) result recv.new }
    {
        if !self.sound() {
            return Read {
                heard: Some(Judged::Refused(Refusal::State as u8)),
                taken: 0,
                frame: self,
            };
        }
        if recv.len() < FrameReader::RAW {
            return Read {
                heard: Some(Judged::Refused(Refusal::Buffer as u8)),
                taken: 0,
                frame: self,
            };
        }
        self.read_on(recv, piece)
    }
}

// Bytes of the receive buffer from `at` on; an empty part where it is too short to hold them.
fn part(recv: &[u8], at: usize, length: usize) -> &[u8]
    ensures { result.now ≡ part at length recv.now }
{
    recv.get(at..at.saturating_add(length)).unwrap_or(&[])
}

/// The payload of a delivered packet, where it stands in the receive buffer; an empty part where that is too short to hold it.
pub fn payload(recv: &[u8], delivery: Delivery) -> &[u8]
    ensures { result.now ≡ part (payload_at delivery.key) delivery.length recv.now }
{
    part(recv, packet::payload_at(delivery.key), delivery.length)
}

/// Its key, likewise; an empty part where it has none.
pub fn key(recv: &[u8], delivery: Delivery) -> &[u8]
    ensures { result.now ≡ part key_at delivery.key recv.now }
{
    part(recv, Packet::KEY_AT, usize::from(delivery.key))
}
