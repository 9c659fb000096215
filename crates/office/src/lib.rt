//! The office's sender: lines of bids in, marked blocks out, any cutting of the input, in constant memory.
#![tactic(auto)]

ghost use Rattle.std.specs.Prelude.{◌≡◌, true, ◌+◌, ◌-◌, ◌≤◌, min, length, take};
ghost use Rattle.std.proofs.lemmas.List.Edits.{sets};
ghost use Rattle.base.specs.Written.{as_written, outcome};
ghost use Rattle.packet_spec.specs.Contents.{plain_packet};
ghost use Rattle.bid.specs.Line.{line_limit, judged, verdict};
ghost use Rattle.office.specs.Start.{as_started};
ghost use Rattle.office.specs.Meaning.{ending_by, desk};
ghost use Rattle.office.specs.Call.{held_limit, hold_limit, out_limit, starting, sound, roomy, hear_on, hear_call, close_call, HeardIs, finishing};
ghost use Rattle.office.specs.Private.{EndedIs, PutIs};

use base::{Refusal, Written};
use bid::Line;
use channel_spec::Block;
use packet::Packet;

/// The sender's state.
#[derive(Clone, Copy)]
pub struct Office {
    /// Lines ended.
    pub lines: u64,
    /// Bytes of the line so far, as many as decide what it is.
    pub stored: usize,
    /// Stream bytes not yet sent.
    pub held: usize,
}

/// What a call answers; the line's number is then `lines` of the state.
// `More` is one of three, as the definition has it (`answered`).
#[derive(Clone, Copy)]
pub enum Answer {
    /// More is wanted.
    More,
    /// A line is accepted: so many bytes of marked blocks stand at the start of the output.
    Sent(usize),
    /// A line is no bid.
    NoBid,
}

/// The result of a call.
#[derive(Clone, Copy)]
pub struct Hearing {
    /// Or why a line, or the call, is refused.
    pub answer: Result<Answer, Refusal>,
    /// Bytes of the piece taken.
    pub taken: usize,
    pub office: Office,
}

// What a line's end gives.
#[derive(Clone, Copy)]
struct Ended {
    // Or why the line is refused.
    answer: Result<Answer, Refusal>,
    // Stream bytes held then.
    held: usize,
}

// Puts out the whole messages among the first n bytes, and moves the rest to the start.
// The room of lent buffers stands in clauses, here and below: of a struct that holds them each function would have to say that each is the same still.
fn put_out(hold: &mut [u8], n: usize, out: &mut [u8]) -> usize
    requires { (n ≤ length hold.old) × (n ≤ hold_limit) × (out_limit ≤ length out.old) }
    ensures { PutIs (take n hold.old) hold.old out.old result hold.new out.new }
{
    let whole = n / Block::MESSAGE * Block::MESSAGE;
    let sent = channel_sender::send(&hold[..whole], out).unwrap_or(0);
    // Onto themselves bytes would be moved one by one.
    if whole == 0 {
        return sent;
    }
    hold.copy_within(whole..n, 0);
    sent
}

// A bid: its packet behind the bytes held, and whole messages put out.
fn send(
    port: u16,
    sequence: u16,
    text: &[u8],
    held: usize,
    hold: &mut [u8],
    out: &mut [u8],
) -> Ended
    requires { (held ≤ held_limit) × (hold_limit ≤ length hold.old) × (out_limit ≤ length out.old) }
    ensures { EndedIs (ending_by (judged (plain_packet port sequence text.now)) held hold.old)
        out.old result hold.new out.new }
{
    match stream::append(hold, held, port, sequence, text) {
        Ok(n) => {
            let all = held + n;
            Ended {
                answer: Ok(Answer::Sent(put_out(hold, all, out))),
                held: all % Block::MESSAGE,
            }
        }
        Err(refusal) => Ended {
            answer: Err(refusal),
            held,
        },
    }
}

// A line's end.
fn end_line(line: &[u8], held: usize, hold: &mut [u8], out: &mut [u8]) -> Ended
    requires { (held ≤ held_limit) × (hold_limit ≤ length hold.old) × (out_limit ≤ length out.old) }
    ensures { EndedIs (ending_by (verdict line.now) held hold.old)
        out.old result hold.new out.new }
{
    match bid::read(line) {
        Some(bid) => send(bid.port, bid.sequence, &line[bid.from..], held, hold, out),
        None => Ended {
            answer: Ok(Answer::NoBid),
            held,
        },
    }
}

// Stores bytes of a line behind the first `at`, as many as decide; how many there are then.
fn keep(line: &mut [u8], at: usize, bytes: &[u8]) -> usize
    requires { (at ≤ line_limit) × (line_limit ≤ length line.old) }
    ensures { (result ≡ min (at + length bytes.now) line_limit)
        × (line.new ≡ sets line.old at (take (line_limit - at) bytes.now)) }
{
    let end = Office::LINE;
    base::copy(bytes, &mut line[at..end]);
    at + bytes.len().min(end - at)
}

impl Hearing {
    // The call is refused: nothing is taken.
    fn refused(refusal: Refusal, office: Office) -> Self
        ensures { result ≡ record { answer = Err refusal; taken = 0; office = office } }
    {
        Hearing {
            answer: Err(refusal),
            taken: 0,
            office,
        }
    }
}

impl Office {
    /// The buffer of a line has at least so many bytes.
    pub const LINE: usize = Line::LONGEST;

    /// Stream bytes held between lines, at most.
    pub const HELD: usize = Block::MESSAGE - 1;

    /// The buffer that holds them, and a packet behind them, has at least so many bytes.
    pub const HOLD: usize = Self::HELD + Packet::PLAIN_RAW + 1;

    /// The output has at least so many bytes.
    pub const OUTPUT: usize = Self::HOLD / Block::MESSAGE * Block::LENGTH;

    /// Before the first byte: one flag is held.
    pub fn start(hold: &mut [u8]) -> Result<Self, Refusal>
        ensures { starting hold.old ≡ (as_started result, hold.new) }
    {
        if hold.len() < Self::HOLD {
            return Err(Refusal::Buffer);
        }
        hold[0] = Packet::FLAG;
        Ok(Office {
            lines: 0,
            stored: 0,
            held: 1,
        })
    }

    // Whether no count is beyond its limit.
    fn sound(self) -> bool
        ensures { result ≡ sound self }
    {
        self.stored <= Office::LINE && self.held <= Office::HELD
    }

    // Whether the buffers are long enough.
    fn has_room(line: &[u8], hold: &[u8]) -> bool
        ensures { result ≡ roomy line.now hold.now }
    {
        Office::LINE <= line.len() && Office::HOLD <= hold.len()
    }

    // A call behind its refusals.
    fn hear_on(self, line: &mut [u8], hold: &mut [u8], piece: &[u8], out: &mut [u8]) -> Hearing
        requires { (sound self ≡ true) × (roomy line.old hold.old ≡ true) × (out_limit ≤ length out.old) }
        ensures { HeardIs (hear_on (desk self line.old hold.old) piece.now)
            out.old result line.new hold.new out.new }
    {
        let n = base::up_to(piece, Line::FEED);
        let stored = keep(line, self.stored, &piece[..n]);
        if n == piece.len() {
            return Hearing {
                answer: Ok(Answer::More),
                taken: n,
                office: Office { stored, ..self },
            };
        }
        let ended = end_line(&line[..stored], self.held, hold, out);
        Hearing {
            answer: ended.answer,
            taken: n + 1,
            office: Office {
                lines: self.lines.saturating_add(1),
                stored: 0,
                held: ended.held,
            },
        }
    }

    /// The next bytes, up to the end of a line: its packet goes behind the bytes held, and whole messages go out.
    pub fn hear(self, line: &mut [u8], hold: &mut [u8], piece: &[u8], out: &mut [u8]) -> Hearing
        ensures { HeardIs (hear_call (length out.old) (desk self line.old hold.old) piece.now)
            out.old result line.new hold.new out.new }
    {
        if !self.sound() {
            return Hearing::refused(Refusal::State, self);
        }
        if !Office::has_room(line, hold) {
            return Hearing::refused(Refusal::Buffer, self);
        }
        if out.len() < Office::OUTPUT {
            return Hearing::refused(Refusal::Output, self);
        }
        self.hear_on(line, hold, piece, out)
    }

    /// The end of the input: it ends a line that is begun.
    pub fn close(self, line: &mut [u8], hold: &mut [u8], out: &mut [u8]) -> Hearing
        ensures { HeardIs (close_call (length out.old) (desk self line.old hold.old))
            out.old result line.new hold.new out.new }
    {
        let feed = [Line::FEED];
        if self.stored == 0 {
            self.hear(line, hold, &[], out)
        } else {
            self.hear(line, hold, &feed, out)
        }
    }

    /// The last block: the bytes held, filled with flags.
    pub fn finish(self, hold: &[u8], out: &mut [u8]) -> Written
        ensures { outcome (as_written result) out.new ≡ finishing self hold.now out.old }
    {
        if !self.sound() {
            return Err(Refusal::State);
        }
        if hold.len() < Office::HOLD {
            return Err(Refusal::Buffer);
        }
        channel_sender::send(&hold[..self.held], out)
    }
}
