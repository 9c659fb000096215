//! Text that is owed: it is made as it goes out, from the piece at hand and the payload, which stays in the receive buffer.
ghost use Rattle.std.specs.Prelude.{◌≡◌, true, ◌≤◌, leb, length};
ghost use Rattle.listing_spec.specs.Lines.{longest};
ghost use Rattle.board.specs.Owed.{alone, nothing, with_text, owes, sound_owed, next_piece, forth};
ghost use Rattle.board.specs.Private.{PutIs};

use board_lines::Piece;
use listing_lines::Line;
use packet::Delivery;

/// Text that is owed: the rest of a piece, and behind it perhaps a packet's text and the line feed that ends it.
// `text` and `delivery` are no Option: callers hand this state in, and may hold any delivery beside a false `text`.
#[derive(Clone, Copy)]
pub struct Owed {
    pub piece: Piece,
    /// Bytes of the piece that are out.
    pub out: usize,
    /// A packet's text is owed behind it.
    pub text: bool,
    /// .. of this packet, whose payload stands in the receive buffer.
    pub delivery: Delivery,
    /// Bytes of the payload that are out, or in the piece.
    pub at: usize,
}

// What is owed behind a part that is written.
#[derive(Clone, Copy)]
pub(crate) struct Put {
    pub owed: Owed,
    pub written: usize,
}

impl Owed {
    // A piece, and nothing behind it.
    pub(crate) fn alone(piece: Piece) -> Owed
        ensures { result ≡ alone piece }
    {
        let delivery = Delivery {
            format: 0,
            number: 0,
            key: 0,
            port: 0,
            sequence: 0,
            length: 0,
        };
        Owed {
            piece,
            out: 0,
            text: false,
            delivery,
            at: 0,
        }
    }

    // Nothing.
    pub(crate) fn nothing() -> Owed
        ensures { result ≡ nothing }
    {
        Owed::alone(Piece::none())
    }

    // A piece, and a packet's text behind it.
    pub(crate) fn with_text(piece: Piece, delivery: Delivery) -> Owed
        ensures { result ≡ with_text piece delivery }
    {
        Owed {
            piece,
            out: 0,
            text: true,
            delivery,
            at: 0,
        }
    }

    // Whether any is owed.
    pub(crate) fn owes(self) -> bool
        ensures { result ≡ owes self }
    {
        self.out < self.piece.length
    }

    // Whether the piece keeps within its bytes.
    pub(crate) fn sound(self) -> bool
        ensures { (result ≡ sound_owed self) × (length self.piece.bytes ≡ longest) }
    {
        self.piece.length <= self.piece.bytes.len()
    }

    // The next piece: a byte of the text, its line feed, or none.
    fn next_piece(self, recv: &[u8]) -> Owed
        ensures { result ≡ next_piece self recv.now }
    {
        if !self.text {
            return Owed::nothing();
        }
        let payload = stream::payload(recv, self.delivery);
        if self.at < payload.len() {
            Owed {
                piece: Piece::shown_byte(payload[self.at]),
                out: 0,
                at: self.at + 1,
                ..self
            }
        } else {
            Owed::alone(Piece::line_feed())
        }
    }

    // One byte further, where it stands: copied for each byte, the piece would be moved twice.
    fn forth(&mut self, recv: &[u8])
        requires { (owes self.old ≡ true) × (self.old.piece.length ≤ longest) }
        ensures { self.new ≡ forth self.old recv.now }
    {
        let out = self.out + 1;
        if out < self.piece.length {
            self.out = out;
        } else {
            *self = self.next_piece(recv);
        }
    }

    // As much as the output has room for.
    pub(crate) fn put(self, recv: &[u8], out: &mut [u8]) -> Put
        requires { (sound_owed self ≡ true) × (length self.piece.bytes ≡ longest) }
        ensures { PutIs self recv.now out.old result out.new }
    {
        let mut owed = self;
        for (w, place) in out.iter_mut().enumerate() {
            if !owed.owes() {
                return Put { owed, written: w };
            }
            *place = owed.piece.bytes[owed.out];
            owed.forth(recv);
        }
        Put {
            owed,
            written: out.len(),
        }
    }
}
