//! The line of a packet noted in a table of ports, written.
ghost use Rattle.std.specs.Prelude.{◌≡◌};
ghost use Rattle.base.specs.Written.{as_written, outcome, write};
ghost use Rattle.text.specs.Put.{Puts};
ghost use Rattle.missed_spec.specs.Line.{noted_text, noted_line};

use crate::notes::Notes;
use base::Written;
use ports::Noted;
use text::{put_item, put_text};

// What a packet is to its port.
fn put_noted_text(text: &mut [u8], at: usize, noted: Noted) -> usize
    ensures { Puts text.old at (noted_text noted) text.new result }
{
    match noted {
        Noted::First => put_text(text, at, b"first\n"),
        Noted::InOrder => put_text(text, at, b"in order\n"),
        Noted::Repeated => put_text(text, at, b"repeated\n"),
        Noted::Missing(n) => {
            let a = put_text(text, at, b"missing ");
            put_item(text, a, u64::from(n), b'\n')
        }
        Noted::Late => put_text(text, at, b"late\n"),
        Noted::Refused(n) => {
            let a = put_text(text, at, b"refused ");
            put_item(text, a, u64::from(n), b'\n')
        }
    }
}

// The line.
pub(crate) fn put_noted(text: &mut [u8], port: u16, sequence: u16, noted: Noted) -> usize
    ensures { Puts text.old 0 (noted_line port sequence noted) text.new result }
{
    let a = put_item(text, 0, u64::from(port), b' ');
    let b = put_item(text, a, u64::from(sequence), b' ');
    put_noted_text(text, b, noted)
}

/// Writes the line of a packet noted.
pub fn print_noted(port: u16, sequence: u16, noted: Noted, out: &mut [u8]) -> Written
    ensures { outcome (as_written result) out.new ≡ write (noted_line port sequence noted) out.old }
{
    let mut text = [0u8; Notes::ROOM];
    let n = put_noted(&mut text, port, sequence, noted);
    text::deliver(&text, n, out)
}
