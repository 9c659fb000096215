//! A recording's bytes heard: runs of stream bytes by the receiver, the bytes between them by where they stand.
ghost use Rattle.std.specs.Prelude.{◌≡◌, true, false, ◌+◌, ◌≤◌, ◌<◌, length};
ghost use Rattle.packet_spec.specs.Contents.{raw_limit};
ghost use Rattle.stream.specs.Call.{sound as sound_frame};
ghost use Rattle.channel.specs.Call.{memory, sound, roomy};
ghost use Rattle.listing_spec.specs.Apart.{in_stream, well, is_wrong};
ghost use Rattle.recording.specs.Deck.{ear};
ghost use Rattle.recording.specs.Call.{fresh_tape, far, deck_of, is_more, near_spot, tape_call, NextIs};
ghost use Rattle.recording.specs.Packets.{packet_call, PacketIs};
ghost use Rattle.recording.specs.Private.{ear_hear, EarIs, PlainIs, headed, TurnIs, HeardIs, AdmittedIs, SoughtIs};

use crate::{found, spot};
use base::Refusal;
use channel::{Answer, Hearing as ChannelHearing, Receiver};
use listing_spec::Spot;
use packet::{Delivery, Judged};

// A flag and not an enum of both streams: callers hand the state in, and the definitions and the laws of calls speak of this field.
/// Where a recording stands, which stream it is, and the receiver; of a plain stream the receiver's frame reader hears.
#[derive(Clone, Copy)]
pub struct RecordingReader {
    pub spot: Spot,
    pub channel: bool,
    pub receiver: Receiver,
}

/// What a call on a recording's bytes gives.
#[derive(Clone, Copy)]
pub struct Hearing {
    pub answer: Answer,
    /// Bytes of the piece taken.
    pub taken: usize,
    pub tape: RecordingReader,
}

/// What a call for a recording's next packet gives.
#[derive(Clone, Copy)]
pub struct NextPacket {
    /// A delivered packet, or none: more bytes are wanted, all are taken, and no packet is owed. Or why the call is refused.
    pub found: Result<Option<Delivery>, Refusal>,
    /// Bytes of the piece taken.
    pub taken: usize,
    pub tape: RecordingReader,
}

// What a turn of a call gives.
#[derive(Clone, Copy)]
struct Turn {
    // It ends the call with this answer.
    answer: Option<Answer>,
    taken: usize,
    tape: RecordingReader,
}

// Whether more is wanted.
fn is_more(answer: Answer) -> bool
    ensures { result ≡ is_more answer }
{
    matches!(answer, Answer::More)
}

// Bytes of a plain stream: the frame reader hears them, and the word buffer stays.
fn listen_plain(receiver: Receiver, recv: &mut [u8], piece: &[u8]) -> ChannelHearing
    requires { (sound_frame receiver.frame ≡ true) × (raw_limit ≤ length recv.old) }
    ensures { PlainIs receiver recv.old piece.now result recv.new }
{
    let read = receiver.frame.read(recv, piece);
    let next = Receiver {
        frame: read.frame,
        ..receiver
    };
    match read.heard {
        None => ChannelHearing {
            answer: Answer::More,
            taken: read.taken,
            receiver: next,
        },
        Some(judged) => ChannelHearing {
            answer: Answer::Said(judged),
            taken: read.taken,
            receiver: next,
        },
    }
}

impl Hearing {
    /// Whether more is wanted: all bytes are taken, and no answer is owed.
    pub fn is_more(self) -> bool
        ensures { result ≡ is_more self.answer }
    {
        is_more(self.answer)
    }
}

impl RecordingReader {
    /// Before the first byte.
    pub fn fresh() -> Self
        ensures { result ≡ fresh_tape }
    {
        RecordingReader {
            spot: spot::fresh(),
            channel: false,
            receiver: Receiver::fresh(),
        }
    }

    // Stream bytes. What it asks of the tape and the buffers, turn, hear and seek ask too. No struct says it: one by value would be made anew behind
    // every call, and one over both buffers would have every contract say that it keeps both references, which is more than the fact that goes.
    fn listen(self, recv: &mut [u8], word: &mut [u8], piece: &[u8]) -> ChannelHearing
        requires { (sound self.receiver ≡ true) × (roomy recv.old word.old ≡ true) }
        ensures { EarIs self.channel
            (ear_hear (ear self.channel (memory self.receiver recv.old word.old)) piece.now)
            result recv.new word.new }
    {
        if self.channel {
            self.receiver.hear(recv, word, piece)
        } else {
            listen_plain(self.receiver, recv, piece)
        }
    }

    // Behind a byte that is no stream byte.
    fn head(self, b: u8) -> Self
        requires { (self.spot.offset < far) × (in_stream self.spot.place self.spot.count ≡ false) }
        ensures { result ≡ headed self b }
    {
        RecordingReader {
            spot: spot::step(self.spot, b),
            channel: spot::channel_behind(self.spot.place, self.channel, b),
            ..self
        }
    }

    // The stream bytes that come next, or the byte where there are none. That the offset has room for the piece, hear and seek ask too: it ties the
    // tape to what is left of a piece, so a struct of both would be made anew behind every call.
    fn turn(self, recv: &mut [u8], word: &mut [u8], piece: &[u8]) -> Turn
        requires { (sound self.receiver ≡ true) × (roomy recv.old word.old ≡ true) × (self.spot.offset + length piece.now ≤ far) }
        ensures { TurnIs (deck_of self recv.old word.old) piece.now result recv.new word.new }
    {
        let n = spot::run(self.spot, piece.len());
        let h = self.listen(recv, word, &piece[..n]);
        let tape = RecordingReader {
            spot: spot::skip(self.spot, h.taken),
            receiver: h.receiver,
            ..self
        };
        if is_more(h.answer) && n < piece.len() {
            if n == 0 {
                return Turn {
                    answer: None,
                    taken: 1,
                    tape: tape.head(piece[0]),
                };
            }
            return Turn {
                answer: None,
                taken: n,
                tape,
            };
        }
        Turn {
            answer: Some(h.answer),
            taken: h.taken,
            tape,
        }
    }

    // A call behind refusals 10 and 11.
    fn hear(self, recv: &mut [u8], word: &mut [u8], piece: &[u8]) -> Hearing
        requires { (sound self.receiver ≡ true) × (roomy recv.old word.old ≡ true) × (self.spot.offset + length piece.now ≤ far) }
        ensures { HeardIs (deck_of self recv.old word.old) piece.now result recv.new word.new }
    {
        let mut tape = self;
        // No `for`, and no rest that shrinks: what a turn takes is known only behind it, and the sum of it is what the call answers.
        let mut i: usize = 0;
        loop {
            let t = tape.turn(recv, word, &piece[i..]);
            tape = t.tape;
            i += t.taken;
            if let Some(answer) = t.answer {
                return Hearing {
                    answer,
                    taken: i,
                    tape,
                };
            }
        }
    }

    // Refusals 10 and 11 of a call on n bytes: also where the offset could pass its width on them.
    fn admitted(self, recv: &[u8], word: &[u8], n: usize) -> Result<(), Refusal>
        ensures { AdmittedIs (sound self.receiver) (near_spot self.spot n) (roomy recv.now word.now) result }
    {
        if !self.receiver.sound() || self.spot.offset > u64::MAX - n as u64 {
            return Err(Refusal::State);
        }
        if !Receiver::has_room(recv, word) {
            return Err(Refusal::Buffer);
        }
        Ok(())
    }

    /// The next bytes: at most one answer. Both buffers are measured, also of a plain stream: which stream it is comes in with the bytes.
    pub fn next(self, recv: &mut [u8], word: &mut [u8], piece: &[u8]) -> Hearing
        ensures { NextIs (tape_call (deck_of self recv.old word.old) piece.now)
            result recv.new word.new }
    {
        match self.admitted(recv, word, piece.len()) {
            Ok(()) => self.hear(recv, word, piece),
            Err(refusal) => Hearing {
                answer: Answer::Said(Judged::Refused(refusal as u8)),
                taken: 0,
                tape: self,
            },
        }
    }

    // A call for a packet behind refusals 10 and 11: other answers are passed over.
    fn seek(self, recv: &mut [u8], word: &mut [u8], piece: &[u8]) -> NextPacket
        requires { (sound self.receiver ≡ true) × (roomy recv.old word.old ≡ true) × (self.spot.offset + length piece.now ≤ far) }
        ensures { SoughtIs (deck_of self recv.old word.old) piece.now result recv.new word.new }
    {
        let mut tape = self;
        // As in hear: what a call takes is known only behind it, and the sum is told.
        let mut i: usize = 0;
        loop {
            let h = tape.hear(recv, word, &piece[i..]);
            tape = h.tape;
            i += h.taken;
            if !found::is_passed(h.answer) {
                return NextPacket {
                    found: Ok(found::packet_in(h.answer)),
                    taken: i,
                    tape,
                };
            }
        }
    }

    /// The next packet among the answers of the next bytes, or that more are wanted; its payload stands in the receive buffer.
    pub fn next_packet(self, recv: &mut [u8], word: &mut [u8], piece: &[u8]) -> NextPacket
        ensures { PacketIs (packet_call (deck_of self recv.old word.old) piece.now)
            result recv.new word.new }
    {
        match self.admitted(recv, word, piece.len()) {
            Ok(()) => self.seek(recv, word, piece),
            Err(refusal) => NextPacket {
                found: Err(refusal),
                taken: 0,
                tape: self,
            },
        }
    }

    /// Whether the recording may end here.
    pub fn may_end(self) -> bool
        ensures { result ≡ well self.spot.place }
    {
        spot::is_well(self.spot.place)
    }

    /// Whether a wrong byte was met: nothing that comes behind it counts, so no more need be read.
    pub fn is_wrong(self) -> bool
        ensures { result ≡ is_wrong self.spot.place }
    {
        spot::is_wrong(self.spot.place)
    }
}
