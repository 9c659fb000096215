//! Texts and numbers, put byte by byte into a lent buffer: as many bytes as there is room for.
#![tactic(auto)]

// No `Display` and no `write!`: these lay bytes into a lent buffer as far as it goes, and their promise says which of them stand there (`Puts`).

ghost use Rattle.std.specs.Prelude.{◌≡◌, [], ◌∷◌, ◌++◌, take};
ghost use Rattle.base.specs.Written.{as_written, outcome, write};
ghost use Rattle.text.specs.Text.{decimal};
ghost use Rattle.text.specs.Put.{Puts};

use base::{Refusal, Written};

/// A byte; the answer is the place behind it.
pub fn put_byte(text: &mut [u8], at: usize, b: u8) -> usize
    ensures { Puts text.old at (b ∷ []) text.new result }
{
    if at < text.len() {
        text[at] = b;
        return at + 1;
    }
    at
}

/// The bytes of a text.
pub fn put_text(text: &mut [u8], at: usize, bytes: &[u8]) -> usize
    ensures { Puts text.old at bytes.now text.new result }
{
    let mut end = at;
    for b in bytes {
        end = put_byte(text, end, *b);
    }
    end
}

/// A number's digits.
pub fn put_number(text: &mut [u8], at: usize, n: u64) -> usize
    ensures { Puts text.old at (decimal n) text.new result }
{
    if n < 10 {
        return put_byte(text, at, b'0' + n as u8);
    }
    let end = put_number(text, at, n / 10);
    put_byte(text, end, b'0' + (n % 10) as u8)
}

/// A number and a byte behind it.
pub fn put_item(text: &mut [u8], at: usize, n: u64, b: u8) -> usize
    ensures { Puts text.old at (decimal n ++ (b ∷ [])) text.new result }
{
    let end = put_number(text, at, n);
    put_byte(text, end, b)
}

/// Writes the first n bytes of a text.
pub fn deliver(text: &[u8], n: usize, out: &mut [u8]) -> Written
    ensures { outcome (as_written result) out.new ≡ write (take n text.now) out.old }
{
    let length = n.min(text.len());
    if out.len() < length {
        return Err(Refusal::Output);
    }
    base::copy(&text[..length], out);
    Ok(length)
}
