//! The lines of a listing, written, and its totals.
#![tactic(auto)]

ghost use Rattle.std.specs.Prelude.{◌≡◌};
ghost use Rattle.base.specs.Written.{as_written, outcome, write};
ghost use Rattle.text.specs.Put.{Puts};
ghost use Rattle.packet_spec.specs.declared.Judged.TheVariants.{Packet};
ghost use Rattle.listing_spec.specs.Lines.{letter, told, block_line, line, end_line, wrong_line};

use base::{Refusal, Written};
use channel_spec::{Answer, Condition};
use packet::{Class, Delivery, Judged};
use text::{deliver, put_item, put_text};

mod totals;

pub use totals::Totals;

/// Lines.
#[derive(Clone, Copy)]
pub struct Line;

impl Line {
    /// No line is longer.
    pub const LONGEST: usize = 128;
}

// The letter of a class.
fn letter(class: Class) -> u8
    ensures { result ≡ letter class }
{
    match class {
        Class::System => b'S',
        Class::Applications => b'A',
        Class::M => b'M',
        Class::D => b'D',
        Class::Future | Class::Barred => b'F',
    }
}

// `P port sequence payload-length class`.
// A `usize` widens by `as`: std has no `From` for it.
fn put_packet(text: &mut [u8], delivery: Delivery) -> usize
    ensures { Puts text.old 0 (told (Packet delivery)) text.new result }
{
    let a = put_text(text, 0, b"P ");
    let b = put_item(text, a, u64::from(delivery.port), b' ');
    let c = put_item(text, b, u64::from(delivery.sequence), b' ');
    let d = put_item(text, c, delivery.length as u64, b' ');
    let last = [letter(packet::class_of(delivery.port)), b'\n'];
    put_text(text, d, &last)
}

// That, or `R n`, or `R 3` and the place. The board's lines of the same answers have other words, and others have none there (`put_remark` of
// `board_lines`): what is alike is which answers there are, and each `match` names them.
fn put_told(text: &mut [u8], judged: Judged) -> usize
    ensures { Puts text.old 0 (told judged) text.new result }
{
    match judged {
        Judged::Packet(delivery) => put_packet(text, delivery),
        Judged::Refused(n) => {
            let a = put_text(text, 0, b"R ");
            put_item(text, a, u64::from(n), b'\n')
        }
        Judged::Broken(place) => {
            let a = put_text(text, 0, b"R ");
            let b = put_item(text, a, Refusal::Escape as u64, b' ');
            put_item(text, b, place as u64, b'\n')
        }
    }
}

// `B 0`, `B` and the count of changed places, or `B X`.
fn put_condition(text: &mut [u8], condition: Condition) -> usize
    ensures { Puts text.old 0 (block_line condition) text.new result }
{
    match condition {
        Condition::Clean => put_text(text, 0, b"B 0\n"),
        Condition::Repaired(count) => {
            let a = put_text(text, 0, b"B ");
            put_item(text, a, count as u64, b'\n')
        }
        Condition::Beyond => put_text(text, 0, b"B X\n"),
    }
}

// An answer's line.
fn put_line(text: &mut [u8], answer: Answer) -> usize
    ensures { Puts text.old 0 (line answer) text.new result }
{
    match answer {
        Answer::More => 0,
        Answer::Said(judged) => put_told(text, judged),
        Answer::Block(condition) => put_condition(text, condition),
        Answer::LockLost => put_text(text, 0, b"L\n"),
    }
}

/// Writes an answer's line; "more wanted" has none.
pub fn print(answer: Answer, out: &mut [u8]) -> Written
    ensures { outcome (as_written result) out.new ≡ write (line answer) out.old }
{
    let mut text: [u8; Line::LONGEST] = [0; Line::LONGEST];
    let n = put_line(&mut text, answer);
    deliver(&text, n, out)
}

/// Writes the last line of a recording that ends well.
pub fn print_end(bytes: u64, totals: Totals, out: &mut [u8]) -> Written
    ensures { outcome (as_written result) out.new ≡
        write (end_line bytes totals.packets totals.refused totals.damaged totals.lost) out.old }
{
    let mut text: [u8; Line::LONGEST] = [0; Line::LONGEST];
    let a = put_text(&mut text, 0, b"E ");
    let b = put_item(&mut text, a, bytes, b' ');
    let c = put_item(&mut text, b, totals.packets, b' ');
    let d = put_item(&mut text, c, totals.refused, b' ');
    let e = put_item(&mut text, d, totals.damaged, b' ');
    let n = put_item(&mut text, e, totals.lost, b'\n');
    deliver(&text, n, out)
}

/// Writes the last line of one that does not.
pub fn print_wrong(offset: u64, out: &mut [u8]) -> Written
    ensures { outcome (as_written result) out.new ≡ write (wrong_line offset) out.old }
{
    let mut text: [u8; Line::LONGEST] = [0; Line::LONGEST];
    let a = put_text(&mut text, 0, b"X ");
    let n = put_item(&mut text, a, offset, b'\n');
    deliver(&text, n, out)
}
