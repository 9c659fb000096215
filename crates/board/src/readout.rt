//! The board: what comes in is heard, packets are noted in the table of ports, and what is to be shown goes out.
ghost use Rattle.std.specs.Prelude.{◌≡◌, true, length};
ghost use Rattle.channel.specs.Call.{roomy};
ghost use Rattle.listing_spec.specs.Lines.{longest};
ghost use Rattle.channel_spec.specs.declared.Answer.TheVariants.{Said};
ghost use Rattle.packet_spec.specs.declared.Judged.TheVariants.{Packet as Delivered};
ghost use Rattle.board_spec.specs.Meaning.{written_all};
ghost use Rattle.board_lines.specs.Piece.{piece_of};
ghost use Rattle.recording.specs.Call.{deck_of};
ghost use Rattle.board.specs.Source.{source, source_hear};
ghost use Rattle.board.specs.Owed.{owed_packet};
ghost use Rattle.board.specs.Call.{fresh_readout, screen_of, near_by, sound_state, last_lines, takes, takes_on, TookIs};
ghost use Rattle.board.specs.Private.{BareIs, HeardIs, answered_by};

use crate::owed::Owed;
use base::Refusal;
use board_lines::Piece;
use channel::{Answer, Receiver};
use packet::{Delivery, Judged, Packet};
use ports::{Noted, Ports};
use ports_spec::Range;
use recording::{Hearing, RecordingReader};

/// A board.
// `bare` and `blocks` are flags: settings, which callers hand in with any state, and the definitions take any (`screen_of`).
#[derive(Clone, Copy)]
pub struct Readout {
    /// The bytes of an opportunistic channel come in as they are, and not those of a recording.
    pub bare: bool,
    /// Clean and repaired blocks are told too.
    pub blocks: bool,
    /// Packets of these ports alone are noted and shown.
    pub range: Range,
    pub tape: RecordingReader,
    pub ports: Ports,
    pub owed: Owed,
}

/// What a call wants next.
// `missed` has the same two words, for its own calls: one type for both would be a public type, and its numbers, more in a crate below.
#[derive(Clone, Copy)]
pub enum Wants {
    /// More bytes: all are taken, and all that they show is written.
    More,
    /// Another call, with room and the rest of the bytes.
    Again,
}

/// The result of a call.
#[derive(Clone, Copy)]
pub struct Took {
    /// Or why the call is refused.
    pub wants: Result<Wants, Refusal>,
    /// Bytes of the piece taken.
    pub taken: usize,
    /// Bytes of the output written.
    pub written: usize,
    pub next: Readout,
}

// What is owed of a packet.
fn owed_packet(noted: Noted, delivery: Delivery) -> Owed
    ensures { result ≡ owed_packet noted delivery }
{
    let piece = Piece::lead(noted, delivery);
    if delivery.format == Packet::KEY_FORMAT {
        Owed::alone(piece)
    } else {
        Owed::with_text(piece, delivery)
    }
}

impl Took {
    // The call is refused: nothing is taken and nothing written. As in `listing`, of another state: one answer over any would be one public type more.
    fn refused(refusal: Refusal, readout: Readout) -> Self
        ensures { result ≡ record { wants = Err refusal; taken = 0; written = 0; next = readout } }
    {
        Took {
            wants: Err(refusal),
            taken: 0,
            written: 0,
            next: readout,
        }
    }
}

impl Readout {
    /// Before the first byte.
    pub fn fresh(bare: bool, blocks: bool, range: Range) -> Self
        ensures { result ≡ fresh_readout bare blocks range }
    {
        Readout {
            bare,
            blocks,
            range,
            tape: RecordingReader::fresh(),
            ports: Ports::fresh(),
            owed: Owed::nothing(),
        }
    }

    // With something else owed.
    fn owing(self, owed: Owed) -> Self
        ensures { result ≡ record { bare = self.bare; blocks = self.blocks; range = self.range; tape = self.tape; ports = self.ports; owed = owed } }
    {
        Readout { owed, ..self }
    }

    // With the tape further on.
    fn on(self, tape: RecordingReader) -> Self
        ensures { result ≡ record { bare = self.bare; blocks = self.blocks; range = self.range; tape = tape; ports = self.ports; owed = self.owed } }
    {
        Readout { tape, ..self }
    }

    // Whether the offset cannot pass its width on n bytes.
    fn near(self, n: usize) -> bool
        ensures { result ≡ near_by self.bare self.tape.spot n }
    {
        self.bare || self.tape.spot.offset <= u64::MAX - n as u64
    }

    // Whether the state passes 10, for n bytes more.
    fn sound(self, n: usize) -> bool
        ensures { (result ≡ sound_state self n) × (length self.owed.piece.bytes ≡ longest) }
    {
        self.tape.receiver.sound() && self.near(n) && self.ports.sound() && self.owed.sound()
    }

    // A packet of the range is noted, and owed.
    fn deliver(self, delivery: Delivery) -> Self
        ensures { result ≡ answered_by self (Said (Delivered delivery)) }
    {
        if !self.range.has(delivery.port) {
            return self.owing(Owed::nothing());
        }
        let told = self.ports.note(delivery.port, delivery.sequence);
        Readout {
            ports: told.ports,
            owed: owed_packet(told.noted, delivery),
            ..self
        }
    }

    // An answer: what it shows is owed.
    fn answer(self, answer: Answer) -> Self
        ensures { result ≡ answered_by self answer }
    {
        match answer {
            Answer::More => self.owing(Owed::nothing()),
            Answer::Said(Judged::Packet(delivery)) => self.deliver(delivery),
            Answer::Said(Judged::Refused(_) | Judged::Broken(_))
            | Answer::Block(_)
            | Answer::LockLost => self.owing(Owed::alone(Piece::remark(self.blocks, answer))),
        }
    }

    // The next answer of bare bytes.
    fn hear_bare(self, recv: &mut [u8], word: &mut [u8], piece: &[u8]) -> Hearing
        ensures { BareIs (deck_of self.tape recv.old word.old) piece.now result recv.new word.new }
    {
        let heard = self.tape.receiver.hear(recv, word, piece);
        Hearing {
            answer: heard.answer,
            taken: heard.taken,
            tape: RecordingReader {
                receiver: heard.receiver,
                ..self.tape
            },
        }
    }

    // The next answer.
    fn hear(self, recv: &mut [u8], word: &mut [u8], piece: &[u8]) -> Hearing
        requires { (sound_state self (length piece.now) ≡ true) × (roomy recv.old word.old ≡ true) }
        ensures { HeardIs self.bare
            (source_hear (source self.bare (deck_of self.tape recv.old word.old)) piece.now)
            result recv.new word.new }
    {
        if self.bare {
            self.hear_bare(recv, word, piece)
        } else {
            self.tape.next(recv, word, piece)
        }
    }

    // A call behind refusals 10 and 11.
    fn take_on(self, recv: &mut [u8], word: &mut [u8], piece: &[u8], out: &mut [u8]) -> Took
        requires { (sound_state self (length piece.now) ≡ true) × (roomy recv.old word.old ≡ true) × (length self.owed.piece.bytes ≡ longest) }
        ensures { TookIs (takes_on (length out.old) (screen_of self recv.old word.old) piece.now)
            result recv.new word.new out.old out.new }
    {
        let put = self.owed.put(recv, out);
        if put.owed.owes() {
            return Took {
                wants: Ok(Wants::Again),
                taken: 0,
                written: put.written,
                next: self.owing(put.owed),
            };
        }
        let heard = self.hear(recv, word, piece);
        let next = self.on(heard.tape).answer(heard.answer);
        if heard.is_more() {
            return Took {
                wants: Ok(Wants::More),
                taken: heard.taken,
                written: put.written,
                next,
            };
        }
        Took {
            wants: Ok(Wants::Again),
            taken: heard.taken,
            written: put.written,
            next,
        }
    }

    /// The next bytes: what is owed is written as far as there is room, and where all of it is out the next answer is heard.
    pub fn take(self, recv: &mut [u8], word: &mut [u8], piece: &[u8], out: &mut [u8]) -> Took
        ensures { TookIs (takes (length out.old) (screen_of self recv.old word.old) piece.now)
            result recv.new word.new out.old out.new }
    {
        if !self.sound(piece.len()) {
            return Took::refused(Refusal::State, self);
        }
        if !Receiver::has_room(recv, word) {
            return Took::refused(Refusal::Buffer, self);
        }
        self.take_on(recv, word, piece, out)
    }

    /// What is still to be said behind the last byte, where `take` wants more: text that is owed is not in it.
    pub fn finish(self) -> Piece
        ensures { result ≡ piece_of (written_all (last_lines self)) }
    {
        if self.bare || self.tape.may_end() {
            Piece::none()
        } else {
            Piece::wrong_at(self.tape.spot.offset)
        }
    }
}
