//! Repair of parity words: with R parity bytes, up to INT(R/2) altered bytes of a word are found and put right.
#![tactic(auto)]

ghost use Rattle.std.specs.Prelude.{◌≡◌, length};
ghost use Rattle.parity.specs.Calls.{word_bytes};
ghost use Rattle.repair.specs.Promise.{distance, Promised};
ghost use Rattle.repair.specs.Mended.{as_mended};
ghost use Rattle.repair.specs.Way.{amended, mended};

use base::Refusal;
use parity::{Checked, Roots, Word};

mod places;
mod rows;

/// What repair finds of a word.
#[derive(Clone, Copy, Debug, PartialEq, Eq)]
pub enum Mended {
    Clean,
    /// So many places are changed.
    Repaired(usize),
    /// The word is beyond repair.
    Beyond,
}

// The number of places in which two words differ.
fn distance(a: &[u8], b: &[u8]) -> usize
    requires { length a.now ≡ length b.now }
    ensures { result ≡ distance a.now b.now }
{
    a.iter().zip(b).filter(|(x, y)| x != y).count()
}

// Puts in the place of a word what it becomes by its locator.
fn amend(roots: Roots, word: &mut [u8])
    requires { length word.old ≡ word_bytes }
    ensures { word.new ≡ amended roots.count word.old }
{
    let mut s = [0u8; Word::MOST];
    // Not refused: so many roots fit.
    let _ = parity::at_roots(roots.count, word, &mut s);
    if let Some(locator) = rows::locator(roots, &s) {
        places::add(&locator, &s, word);
    }
}

// Repairs a damaged word: what it becomes is taken where it is near and clean.
fn mend(roots: Roots, word: &mut [u8]) -> Mended
    requires { length word.old ≡ word_bytes }
    ensures { (as_mended (Ok result), word.new) ≡ mended roots.count word.old }
{
    let mut left = [0u8; Word::LENGTH];
    left.copy_from_slice(word);
    amend(roots, &mut left);
    let n = distance(word, &left);
    if roots.count / 2 < n {
        return Mended::Beyond;
    }
    match parity::check(roots.count, &left) {
        Ok(Checked::Clean) => {
            word.copy_from_slice(&left);
            Mended::Repaired(n)
        }
        Ok(Checked::Damaged) => Mended::Beyond,
        // Not refused: the word is one, and so many roots fit. An arm of its own, as a joined one has no name for its fact in a proof.
        Err(_) => Mended::Beyond,
    }
}

/// Repairs a word with r parity bytes, in its place.
pub fn repair(r: usize, word: &mut [u8]) -> Result<Mended, Refusal>
    ensures { Promised r word.old (as_mended result) word.new }
{
    let roots = Roots::try_from(r)?;
    match parity::check(r, word)? {
        Checked::Clean => Ok(Mended::Clean),
        Checked::Damaged => Ok(mend(roots, word)),
    }
}
