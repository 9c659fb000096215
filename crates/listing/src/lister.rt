//! The listing of a recording: bytes in, lines out, any cutting of the input and any room for the output.
ghost use Rattle.std.specs.Prelude.{◌≡◌, true, ◌++◌, ◌≤◌, ◌<◌, length, drop};
ghost use Rattle.base.specs.Written.{as_written, outcome};
ghost use Rattle.channel.specs.Call.{sound, roomy};
ghost use Rattle.listing_spec.specs.Lines.{line, longest};
ghost use Rattle.recording.specs.Call.{deck_of};
ghost use Rattle.listing.specs.Call.{fresh_recording, near_totals, near, takes, print, TookIs, finishing};
ghost use Rattle.listing.specs.Private.{StepIs};

use base::{Refusal, Written};
use channel::{Answer, Receiver};
use listing_lines::{Line, Totals};
use recording::RecordingReader;

/// A recording that is being listed.
#[derive(Clone, Copy)]
pub struct Lister {
    pub tape: RecordingReader,
    pub totals: Totals,
}

/// What a call wants next.
// Not one type with the board's, nor that with `missed`'s: each is the word of one call, with its number in the definitions beside it (`as_got`).
#[derive(Clone, Copy)]
pub enum Wants {
    /// More bytes: all are taken, and no answer is owed.
    More,
    /// More room, and the rest of the bytes again.
    Room,
}

/// The result of a call.
#[derive(Clone, Copy)]
pub struct Took {
    /// Or why the call is refused.
    pub wants: Result<Wants, Refusal>,
    /// Bytes of the piece taken.
    pub taken: usize,
    /// Bytes of the output written.
    pub written: usize,
    pub next: Lister,
}

// What a step of a call gives: one line at most.
#[derive(Clone, Copy)]
struct Step {
    // It ends the call, and this is wanted.
    wants: Option<Wants>,
    taken: usize,
    written: usize,
    next: Lister,
}

// An answer's line, where there is room for any.
fn put(answer: Answer, out: &mut [u8]) -> usize
    requires { longest ≤ length out.old }
    ensures { (result ≡ length (line answer)) × (out.new ≡ line answer ++ drop (length (line answer)) out.old) }
{
    listing_lines::print(answer, out).unwrap_or(0)
}

// Whether no total can pass its width while so many bytes are written.
fn near_totals(totals: Totals, room: usize) -> bool
    ensures { result ≡ near_totals totals room }
{
    let most = u64::MAX - room as u64;
    totals.packets <= most
        && totals.refused <= most
        && totals.damaged <= most
        && totals.lost <= most
}

impl Took {
    // The call is refused: nothing is taken and nothing written. As in `board`, where it is said why twice.
    fn refused(refusal: Refusal, recording: Lister) -> Self
        ensures { result ≡ record { wants = Err refusal; taken = 0; written = 0; next = recording } }
    {
        Took {
            wants: Err(refusal),
            taken: 0,
            written: 0,
            next: recording,
        }
    }
}

impl Lister {
    /// An output of so many bytes has room for any line.
    pub const ROOM: usize = Line::LONGEST;

    /// Before the first byte.
    pub fn fresh() -> Self
        ensures { result ≡ fresh_recording }
    {
        Lister {
            tape: RecordingReader::fresh(),
            totals: Totals::none(),
        }
    }

    // Whether no number can pass its width in a call on n bytes, with so much room.
    fn near(self, n: usize, room: usize) -> bool
        ensures { result ≡ near self.tape.spot self.totals n room }
    {
        self.tape.spot.offset <= u64::MAX - n as u64 && near_totals(self.totals, room)
    }

    // One answer, and its line.
    fn step(self, recv: &mut [u8], word: &mut [u8], piece: &[u8], out: &mut [u8]) -> Step
        requires { (sound self.tape.receiver ≡ true) × (roomy recv.old word.old ≡ true)
            × (near self.tape.spot self.totals (length piece.now) (length out.old) ≡ true) }
        ensures { StepIs (deck_of self.tape recv.old word.old) self.totals piece.now out.old
            result recv.new word.new out.new }
    {
        if out.len() < Lister::ROOM {
            return Step {
                wants: Some(Wants::Room),
                taken: 0,
                written: 0,
                next: self,
            };
        }
        let heard = self.tape.next(recv, word, piece);
        if heard.is_more() {
            return Step {
                wants: Some(Wants::More),
                taken: heard.taken,
                written: 0,
                next: Lister {
                    tape: heard.tape,
                    ..self
                },
            };
        }
        Step {
            wants: None,
            taken: heard.taken,
            written: put(heard.answer, out),
            next: Lister {
                tape: heard.tape,
                totals: self.totals.count(heard.answer),
            },
        }
    }

    // A call behind refusals 10 and 11.
    fn take_on(self, recv: &mut [u8], word: &mut [u8], piece: &[u8], out: &mut [u8]) -> Took
        requires { (sound self.tape.receiver ≡ true) × (roomy recv.old word.old ≡ true)
            × (near self.tape.spot self.totals (length piece.now) (length out.old) ≡ true) }
        ensures { TookIs (print (length out.old) (length out.old)
            (deck_of self.tape recv.old word.old) self.totals piece.now)
            result recv.new word.new out.old out.new }
    {
        let mut next = self;
        let mut i: usize = 0;
        let mut w: usize = 0;
        // How far a step goes on, in the piece and in the output, is known only behind it, so that no `for` counts it.
        loop {
            let s = next.step(recv, word, &piece[i..], &mut out[w..]);
            next = s.next;
            i += s.taken;
            w += s.written;
            if let Some(wants) = s.wants {
                return Took {
                    wants: Ok(wants),
                    taken: i,
                    written: w,
                    next,
                };
            }
        }
    }

    /// The next bytes: lines are written while the output has room for any line.
    pub fn take(self, recv: &mut [u8], word: &mut [u8], piece: &[u8], out: &mut [u8]) -> Took
        ensures { TookIs
            (takes (deck_of self.tape recv.old word.old) self.totals (length out.old) piece.now)
            result recv.new word.new out.old out.new }
    {
        if !self.tape.receiver.sound() || !self.near(piece.len(), out.len()) {
            return Took::refused(Refusal::State, self);
        }
        if !Receiver::has_room(recv, word) {
            return Took::refused(Refusal::Buffer, self);
        }
        self.take_on(recv, word, piece, out)
    }

    /// The last line.
    pub fn finish(self, out: &mut [u8]) -> Written
        ensures { outcome (as_written result) out.new ≡ finishing self out.old }
    {
        if self.tape.may_end() {
            listing_lines::print_end(self.tape.spot.count, self.totals, out)
        } else {
            listing_lines::print_wrong(self.tape.spot.offset, out)
        }
    }
}
