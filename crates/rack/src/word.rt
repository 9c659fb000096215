//! Words: parity made, a word checked, a word repaired.
ghost use Rattle.std.specs.Prelude.{◌≡◌};
ghost use Rattle.base.specs.Refusals.{number};
ghost use Rattle.rack.specs.Words.{making, checking, mending};

use crate::answers;
use base::Refusal;
use parity::Checked;
use repair::Mended;

/// Makes the r parity bytes of a message: 0, or refused with 30, 31, 23.
pub fn aas_parity_make(r: usize, message: &[u8], out: &mut [u8]) -> usize
    ensures { (result, out.new) ≡ making r message.now out.old }
{
    match parity::make(r, message, out) {
        Ok(_) => 0,
        Err(refusal) => number(refusal),
    }
}

/// Checks a word with r parity bytes: 0 clean, 1 damaged, or refused with 30, 31.
pub fn aas_word_check(r: usize, word: &[u8]) -> usize
    ensures { result ≡ checking r word.now }
{
    match parity::check(r, word) {
        Ok(Checked::Clean) => 0,
        Ok(Checked::Damaged) => 1,
        Err(refusal) => number(refusal),
    }
}

/// Repairs a word with r parity bytes in its place: 0 clean, 1 beyond repair, 256 + n repaired in n places, or refused with 30, 31.
pub fn aas_word_repair(r: usize, word: &mut [u8]) -> usize
    ensures { (result, word.new) ≡ mending r word.old }
{
    match repair::repair(r, word) {
        Ok(Mended::Clean) => 0,
        Ok(Mended::Repaired(n)) => answers::FIRST + n,
        Ok(Mended::Beyond) => 1,
        Err(refusal) => number(refusal),
    }
}

// The paper's number of a refusal: apart, so that the proof of the caller has one case and not one for each refusal.
fn number(refusal: Refusal) -> usize
    ensures { result ≡ number refusal }
{
    refusal as usize
}
