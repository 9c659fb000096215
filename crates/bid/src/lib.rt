//! A line of the office's input, `PORT SEQUENCE TEXT`, read.
#![tactic(auto)]

ghost use Rattle.std.specs.Prelude.{◌≡◌};
ghost use Rattle.bid.specs.Line.{number, number_from, reading};
ghost use Rattle.bid.specs.Private.{as_number};

use packet::Packet;

/// A bid, read off its line.
#[derive(Clone, Copy)]
pub struct Bid {
    pub port: u16,
    pub sequence: u16,
    /// Where its text begins.
    pub from: usize,
}

/// Lines.
#[derive(Clone, Copy)]
pub struct Line;

impl Line {
    /// It ends a line.
    pub const FEED: u8 = b'\n';

    /// It ends a number.
    pub const SPACE: u8 = b' ';

    /// A number has no more digits.
    pub const DIGITS: usize = 5;

    /// So many first bytes of a line tell what the sender says of it.
    pub const LONGEST: usize = 2 * (Self::DIGITS + 1) + Packet::PAYLOAD + 1;
}

// The value of digits; none where there is another byte among them, or no room for it in 16 bits.
fn digits(word: &[u8]) -> Option<u16>
    ensures { as_number result ≡ number_from 0 word.now }
{
    let mut n: u16 = 0;
    for b in word {
        if !b.is_ascii_digit() {
            return None;
        }
        n = n.checked_mul(10)?.checked_add(u16::from(*b - b'0'))?;
    }
    Some(n)
}

// A number of one to five digits.
fn number(word: &[u8]) -> Option<u16>
    ensures { as_number result ≡ number word.now }
{
    if word.is_empty() || Line::DIGITS < word.len() {
        return None;
    }
    digits(word)
}

/// Reads a line; none where it is no bid.
pub fn read(line: &[u8]) -> Option<Bid>
    ensures { result ≡ reading line.now }
{
    let a = base::up_to(line, Line::SPACE);
    if a == line.len() {
        return None;
    }
    let port = number(&line[..a])?;
    let from = a + 1;
    let end = from + base::up_to(&line[from..], Line::SPACE);
    let sequence = number(&line[from..end])?;
    Some(Bid {
        port,
        sequence,
        from: (end + 1).min(line.len()),
    })
}
