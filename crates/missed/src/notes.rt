//! Which bids a recording misses: bytes in, lines out, any cutting of the input.
ghost use Rattle.std.specs.Prelude.{◌≡◌, ◌≤◌, length};
ghost use Rattle.missed_spec.specs.Line.{longest};
ghost use Rattle.missed.specs.Call.{fresh_notes, page_of, takes, TookIs};
ghost use Rattle.missed.specs.Wants.{as_took};
ghost use Rattle.missed.specs.Private.{NotedIs};

use crate::line::put_noted;
use base::Refusal;
use packet::Delivery;
use ports::Ports;
use ports_spec::Range;
use recording::RecordingReader;

/// A recording whose packets of a range of ports are noted.
#[derive(Clone, Copy)]
pub struct Notes {
    pub tape: RecordingReader,
    pub ports: Ports,
    pub range: Range,
}

/// What a call wants next.
// The board has the same two words, for its own calls: each is the word of one call, with its number in the definitions beside it (`as_took`).
#[derive(Clone, Copy)]
pub enum Wants {
    /// More bytes: all are taken, and no line is owed.
    More,
    /// The rest of the bytes again.
    Again,
}

/// The result of a call.
#[derive(Clone, Copy)]
pub struct Took {
    pub wants: Result<Wants, Refusal>,
    /// Bytes of the piece taken.
    pub taken: usize,
    /// Bytes of the output written.
    pub written: usize,
    pub next: Notes,
}

impl Notes {
    /// An output of so many bytes has room for any line.
    pub const ROOM: usize = 71;

    /// Before the first byte, for these ports.
    pub fn fresh(range: Range) -> Self
        ensures { result ≡ fresh_notes range }
    {
        Notes {
            tape: RecordingReader::fresh(),
            ports: Ports::fresh(),
            range,
        }
    }

    // What a call that writes nothing gives.
    fn unwritten(self, wants: Result<Wants, Refusal>, taken: usize) -> Took
        ensures { result ≡ record { wants = wants; taken = taken; written = 0; next = self } }
    {
        Took {
            wants,
            taken,
            written: 0,
            next: self,
        }
    }

    // A packet, and its line; one of a port outside the range is neither noted nor shown.
    fn note(self, taken: usize, delivery: Delivery, out: &mut [u8]) -> Took
        requires { longest ≤ length out.old }
        ensures { NotedIs self taken delivery (as_took result) out.old out.new }
    {
        if !self.range.has(delivery.port) {
            return self.unwritten(Ok(Wants::Again), taken);
        }
        let told = self.ports.note(delivery.port, delivery.sequence);
        let written = put_noted(out, delivery.port, delivery.sequence, told.noted);
        Took {
            wants: Ok(Wants::Again),
            taken,
            written,
            next: Notes {
                ports: told.ports,
                ..self
            },
        }
    }

    /// The next bytes: the line of the next packet, where it is one of the range; refused where the output has no room for any line.
    pub fn take(self, recv: &mut [u8], word: &mut [u8], piece: &[u8], out: &mut [u8]) -> Took
        ensures { TookIs (takes (length out.old) (page_of self recv.old word.old) piece.now)
            (as_took result) recv.new word.new out.old out.new }
    {
        if out.len() < Notes::ROOM {
            return self.unwritten(Err(Refusal::Output), 0);
        }
        let heard = self.tape.next_packet(recv, word, piece);
        let next = Notes {
            tape: heard.tape,
            ..self
        };
        match heard.found {
            Ok(None) => next.unwritten(Ok(Wants::More), heard.taken),
            Ok(Some(delivery)) => next.note(heard.taken, delivery, out),
            Err(refusal) => next.unwritten(Err(refusal), heard.taken),
        }
    }
}
