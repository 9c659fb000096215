//! The lines of the board, written in pieces: by value, so that a piece can be written in parts.
#![tactic(auto)]

ghost use Rattle.std.specs.Prelude.{◌≡◌, true, ◌<◌, [], ◌∷◌, replicate};
ghost use Rattle.std.specs.Fn.{FnOnceReturnsAtMut};
ghost use Rattle.listing_spec.specs.Lines.{longest};
ghost use Rattle.text.specs.Put.{Puts};
ghost use Rattle.bid.specs.Line.{feed};
ghost use Rattle.board_spec.specs.Text.{sixteenth, by_number, shown_byte, heading};
ghost use Rattle.board_spec.specs.Meaning.{restricted, wrong_at, written, written_all, ahead_of, block_lines};
ghost use Rattle.board_spec.specs.Parts.{own_lead, lead, remark};
ghost use Rattle.channel_spec.specs.declared.Answer.TheVariants.{Said};
ghost use Rattle.board_lines.specs.Piece.{piece_of};

use base::Refusal;
use channel_spec::{Answer, Condition};
use listing_lines::Line;
use packet::{Delivery, Judged, Packet};
use ports::Noted;
use text::{put_item, put_text};

/// A piece of a text: the first so many bytes.
// An array and a count, since a library has no heap; callers hand in any count with what is owed, and one above the array is refused with 10 (crates/board).
#[derive(Clone, Copy)]
pub struct Piece {
    pub bytes: [u8; Line::LONGEST],
    pub length: usize,
}

impl Piece {
    // What is put at the start of zeros.
    fn of<F: FnOnce(&mut [u8]) -> usize>(put: F) -> Piece
        requires { F.IsAlwaysCallable put }
        ensures { FnOnceReturnsAtMut F.FnOnce put (replicate longest 0) result.length result.bytes }
    {
        let mut bytes: [u8; Line::LONGEST] = [0; Line::LONGEST];
        let length = put(&mut bytes);
        Piece { bytes, length }
    }

    /// A line feed.
    pub fn line_feed() -> Piece
        ensures { result ≡ piece_of (feed ∷ []) }
    {
        Piece::of(|text| put_text(text, 0, b"\n"))
    }

    /// A byte of a payload, as it is shown.
    pub fn shown_byte(b: u8) -> Piece
        ensures { result ≡ piece_of (shown_byte b) }
    {
        Piece::of(|text| put_shown(text, b))
    }

    /// What stands before a packet's text, by what it is to its port.
    pub fn lead(noted: Noted, delivery: Delivery) -> Piece
        ensures { result ≡ piece_of (lead noted delivery) }
    {
        Piece::of(|text| put_lead(text, noted, delivery))
    }

    /// The line of an answer that is no packet, where it has one.
    // `blocks` is the caller's setting, which the definition `remark` takes too; `put_remark` and `put_block_told` have it handed on.
    pub fn remark(blocks: bool, answer: Answer) -> Piece
        ensures { result ≡ piece_of (remark blocks answer) }
    {
        Piece::of(|text| put_remark(text, blocks, answer))
    }

    /// The last line, of a recording that does not end as one.
    pub fn wrong_at(offset: u64) -> Piece
        ensures { result ≡ piece_of (written (wrong_at offset)) }
    {
        Piece::of(|text| put_wrong(text, offset))
    }

    /// No text.
    pub fn none() -> Piece
        ensures { result ≡ piece_of [] }
    {
        Piece {
            bytes: [0; Line::LONGEST],
            length: 0,
        }
    }
}

// A digit of base 16.
fn sixteenth(n: u8) -> u8
    requires { n < 16 }
    ensures { result ≡ sixteenth n }
{
    if n < 10 { b'0' + n } else { b'A' - 10 + n }
}

// A byte by its number.
fn put_numbered(text: &mut [u8], b: u8) -> usize
    ensures { Puts text.old 0 (by_number b) text.new result }
{
    let shown = [b'\\', b'x', sixteenth(b / 16), sixteenth(b % 16)];
    put_text(text, 0, &shown)
}

// A byte as it is shown.
fn put_shown(text: &mut [u8], b: u8) -> usize
    ensures { Puts text.old 0 (shown_byte b) text.new result }
{
    match b {
        b'\\' => put_text(text, 0, b"\\\\"),
        b' '..=b'~' => put_text(text, 0, &[b]),
        _ => put_numbered(text, b),
    }
}

// Lines ahead of a packet's own.
fn put_ahead(text: &mut [u8], noted: Noted, port: u16) -> usize
    ensures { Puts text.old 0 (written_all (ahead_of noted port)) text.new result }
{
    match noted {
        Noted::First | Noted::InOrder | Noted::Repeated | Noted::Late => 0,
        Noted::Missing(n) => {
            let a = put_text(text, 0, b"! missing ");
            let b = put_item(text, a, u64::from(port), b' ');
            put_item(text, b, u64::from(n), b'\n')
        }
        Noted::Refused(_) => {
            let a = put_text(text, 0, b"! unwatched ");
            put_item(text, a, u64::from(port), b'\n')
        }
    }
}

// `PORT SEQUENCE `.
fn put_heading(text: &mut [u8], at: usize, port: u16, sequence: u16) -> usize
    ensures { Puts text.old at (heading port sequence) text.new result }
{
    let a = put_item(text, at, u64::from(port), b' ');
    put_item(text, a, u64::from(sequence), b' ')
}

// A packet's own line up to its text.
fn put_own(text: &mut [u8], at: usize, noted: Noted, port: u16, sequence: u16) -> usize
    ensures { Puts text.old at (own_lead noted port sequence) text.new result }
{
    match noted {
        Noted::First | Noted::InOrder | Noted::Missing(_) | Noted::Refused(_) => {
            put_heading(text, at, port, sequence)
        }
        Noted::Repeated => {
            let a = put_text(text, at, b"! repeated ");
            put_heading(text, a, port, sequence)
        }
        Noted::Late => {
            let a = put_text(text, at, b"! late ");
            put_heading(text, a, port, sequence)
        }
    }
}

// A packet for subscribers.
fn put_restricted(text: &mut [u8], at: usize, port: u16, sequence: u16, key: u8) -> usize
    ensures { Puts text.old at (written (restricted port sequence key)) text.new result }
{
    let a = put_text(text, at, b"! restricted ");
    let b = put_item(text, a, u64::from(port), b' ');
    let c = put_item(text, b, u64::from(sequence), b' ');
    put_item(text, c, u64::from(key), b'\n')
}

// All that stands before a packet's text.
fn put_lead(text: &mut [u8], noted: Noted, delivery: Delivery) -> usize
    ensures { Puts text.old 0 (lead noted delivery) text.new result }
{
    let a = put_ahead(text, noted, delivery.port);
    if delivery.format == Packet::KEY_FORMAT {
        return put_restricted(text, a, delivery.port, delivery.sequence, delivery.number);
    }
    put_own(text, a, noted, delivery.port, delivery.sequence)
}

// A refused frame's line. A `usize` widens by `as`: std has no `From` for it.
fn put_refused(text: &mut [u8], judged: Judged) -> usize
    ensures { Puts text.old 0 (remark true (Said judged)) text.new result }
{
    match judged {
        Judged::Packet(_) => 0,
        Judged::Refused(n) => {
            let a = put_text(text, 0, b"! frame refused ");
            put_item(text, a, u64::from(n), b'\n')
        }
        Judged::Broken(place) => {
            let a = put_text(text, 0, b"! frame refused ");
            let b = put_item(text, a, Refusal::Escape as u64, b' ');
            put_item(text, b, place as u64, b'\n')
        }
    }
}

// A block's line, where it has one.
fn put_block_told(text: &mut [u8], blocks: bool, condition: Condition) -> usize
    ensures { Puts text.old 0 (written_all (block_lines blocks condition)) text.new result }
{
    match condition {
        Condition::Clean if blocks => put_text(text, 0, b"! block clean\n"),
        Condition::Repaired(count) if blocks => {
            let a = put_text(text, 0, b"! block repaired ");
            put_item(text, a, count as u64, b'\n')
        }
        Condition::Clean | Condition::Repaired(_) => 0,
        Condition::Beyond => put_text(text, 0, b"! block beyond repair\n"),
    }
}

// The line of an answer that is no packet.
fn put_remark(text: &mut [u8], blocks: bool, answer: Answer) -> usize
    ensures { Puts text.old 0 (remark blocks answer) text.new result }
{
    match answer {
        Answer::More => 0,
        Answer::Said(judged) => put_refused(text, judged),
        Answer::Block(condition) => put_block_told(text, blocks, condition),
        Answer::LockLost => put_text(text, 0, b"! lock lost\n"),
    }
}

// The last line of a recording that does not end as one.
fn put_wrong(text: &mut [u8], offset: u64) -> usize
    ensures { Puts text.old 0 (written (wrong_at offset)) text.new result }
{
    let a = put_text(text, 0, b"! wrong at ");
    put_item(text, a, offset, b'\n')
}
