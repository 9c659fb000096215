//! Parity words of 255 bytes: parity made, a word's values at its roots, and a word checked.
#![tactic(auto)]

ghost use Rattle.std.specs.Prelude.{◌≡◌, ◌∷◌, ◌++◌, ◌+◌, ◌-◌, ◌≤◌, length, take, drop, replicate};
ghost use Rattle.base.specs.Written.{copied, as_written, outcome};
ghost use Rattle.word_spec.specs.Word.{values_from, clean, scale, onto, generator, divide, remainder};
ghost use Rattle.word_spec.specs.Private.{points, stepped};
ghost use Rattle.parity.specs.Checked.{as_checked};
ghost use Rattle.parity.specs.Calls.{word_bytes, root_limit, at_powers, at_roots, checked, made};

use base::{Refusal, Written};

/// What the check of a word finds.
#[derive(Clone, Copy, Debug, PartialEq, Eq)]
pub enum Checked {
    Clean,
    Damaged,
}

/// A word: a message, and its parity behind it.
#[derive(Clone, Copy)]
pub struct Word;

impl Word {
    /// Its bytes.
    pub const LENGTH: usize = 255;
    /// The most of them that may be parity.
    pub const MOST: usize = 64;
    // Coefficients of the generator, at most.
    const GENERATOR: usize = Self::MOST + 1;
}

/// How many roots a word has: so many of its bytes are parity. The number is public, since the clauses of other crates name it.
#[derive(Clone, Copy)]
pub struct Roots {
    pub count: usize,
    pub ghost few: { count ≤ root_limit },
}

impl TryFrom<usize> for Roots {
    ghost use Rattle.parity.specs.Roots.{Taken};

    type Error = Refusal;

    ghost try_from_gives = { Taken };

    fn try_from(count: usize) -> Result<Roots, Refusal> {
        if Word::MOST < count {
            return Err(Refusal::Roots);
        }
        Ok(Roots { count })
    }
}

// 64 points from the first on, each alpha times the one before it.
fn points(first: u8) -> [u8; Word::MOST]
    ensures { result ≡ points first root_limit }
{
    let mut p = [0u8; Word::MOST];
    let mut x = first;
    for point in p.iter_mut() {
        *point = x;
        x = field::times(x, field::ALPHA);
    }
    p
}

// One step of Horner's rule at 64 points, side by side: c comes behind the coefficients whose values are v.
fn step(c: u8, p: [u8; Word::MOST], v: [u8; Word::MOST]) -> [u8; Word::MOST]
    ensures { result ≡ stepped c p v }
{
    let mut next = v;
    // By index: tried by array::from_fn, and the proof did not close: of a lane it tells of a call at some state of the closure, not of what that captured.
    for lane in 0..Word::MOST {
        next[lane] = field::plus(field::times(p[lane], next[lane]), c);
    }
    next
}

// How many zeros stand before the first other byte: the values stay zero over them.
fn zeros(word: &[u8]) -> usize
    ensures { (result ≤ length word.now) × (take result word.now ≡ replicate result 0) }
{
    word.iter().position(|b| *b != 0).unwrap_or(word.len())
}

/// The values at alpha^j, alpha^(j + 1), .. alpha^(j + 63) of coefficients, the highest first; for j = 1, at all roots that a word may have.
pub fn at_powers(j: usize, word: &[u8]) -> [u8; Word::MOST]
    ensures { result ≡ at_powers j word.now }
{
    let mut v = [0u8; Word::MOST];
    let passed = zeros(word);
    if passed == word.len() {
        return v;
    }
    let p = points(field::power(j));
    for c in &word[passed..] {
        // by a name of its own: the check does not cover a result that is laid where the argument lies
        let next = step(*c, p, v);
        v = next;
    }
    v
}

// The values of a word at 64 roots: at the first 32 those of what division by their product leaves of it, at the others likewise.
fn at_all(word: &[u8]) -> [u8; Word::MOST]
    ensures { result ≡ at_powers 1 word.now }
{
    let left = lanes::left(word);
    let low = at_powers(1, &left);
    let above = lanes::left_above(word);
    let mut v = at_powers(1, &above);
    base::copy(&low[..lanes::ROOTS], &mut v);
    v
}

// Values of which the first are those of a word at its roots: with at most 32 roots one division is enough.
fn at_first(roots: Roots, word: &[u8]) -> [u8; Word::MOST]
    ensures { take roots.count result ≡ values_from word.now 1 roots.count }
{
    if roots.count <= lanes::ROOTS {
        let left = lanes::left(word);
        return at_powers(1, &left);
    }
    at_all(word)
}

/// Writes the values of a word at its r roots.
pub fn at_roots(r: usize, word: &[u8], out: &mut [u8]) -> Written
    ensures { outcome (as_written result) out.new ≡ at_roots r word.now out.old }
{
    let roots = Roots::try_from(r)?;
    if out.len() < r {
        return Err(Refusal::Output);
    }
    let v = at_first(roots, word);
    base::copy(&v[..r], out);
    Ok(r)
}

// Whether a word is zero at its roots.
fn zero_at(roots: Roots, word: &[u8]) -> bool
    ensures { result ≡ clean roots.count word.now }
{
    if roots.count == 0 {
        return true;
    }
    if roots.count == lanes::ROOTS {
        return lanes::is_clean(word);
    }
    let v = at_first(roots, word);
    v[..roots.count].iter().all(|x| *x == 0)
}

/// Checks a word with r parity bytes.
pub fn check(r: usize, word: &[u8]) -> Result<Checked, Refusal>
    ensures { as_checked result ≡ checked r word.now }
{
    let roots = Roots::try_from(r)?;
    if word.len() != Word::LENGTH {
        Err(Refusal::Length)
    } else if zero_at(roots, word) {
        Ok(Checked::Clean)
    } else {
        Ok(Checked::Damaged)
    }
}

// Multiplies g, the 0 behind it lent too, by (x - a).
fn times_root(a: u8, g: &mut [u8])
    ensures { g.new ≡ onto (0 ∷ scale a g.old) g.old }
{
    let mut last: u8 = 0;
    for x in g.iter_mut() {
        let next = field::plus(field::times(a, last), *x);
        last = *x;
        *x = next;
    }
}

// The generator for so many roots, with zeros behind.
fn generate(roots: Roots) -> [u8; Word::GENERATOR]
    ensures { result ≡ generator roots.count ++ replicate (root_limit - roots.count) 0 }
{
    let mut g = [0u8; Word::GENERATOR];
    g[0] = 1;
    for j in 0..roots.count {
        let a = field::power(j + 1);
        times_root(a, &mut g[..j + 2]);
    }
    g
}

/// Takes c times g away from the first bytes of p, as far as p goes.
pub fn subtract(c: u8, g: &[u8], p: &mut [u8])
    ensures { p.new ≡ onto (scale c g.now) p.old }
{
    // By index: of what is written through iter_mut().zip(..) a proof knows the length alone.
    for i in 0..g.len().min(p.len()) {
        p[i] = field::plus(field::times(c, g[i]), p[i]);
    }
}

// Long division in place by x^k + g, k being g's length: behind the n places that are gone stands what is left.
fn reduce(n: usize, g: &[u8], p: &mut [u8])
    requires { n + length g.now ≤ length p.old }
    ensures { drop n p.new ≡ divide n (1 ∷ g.now) p.old }
{
    // By index: each turn lends what stands behind its place.
    for i in 0..n {
        let c = p[i];
        subtract(c, g, &mut p[i + 1..]);
    }
}

// Stores the parity of a message from the start of out on.
fn put_parity(roots: Roots, message: &[u8], out: &mut [u8])
    requires { length message.now ≡ word_bytes - roots.count }
    ensures { out.new ≡ copied (remainder roots.count message.now) out.old }
{
    let mut p = [0u8; Word::LENGTH];
    base::copy(message, &mut p);
    if roots.count == lanes::ROOTS {
        let left = lanes::left(&p);
        base::copy(&left, out);
        return;
    }
    let n = Word::LENGTH - roots.count;
    let g = generate(roots);
    reduce(n, &g[1..roots.count + 1], &mut p);
    base::copy(&p[n..], out);
}

/// Makes the r parity bytes of a message.
pub fn make(r: usize, message: &[u8], out: &mut [u8]) -> Written
    ensures { outcome (as_written result) out.new ≡ made r message.now out.old }
{
    let roots = Roots::try_from(r)?;
    if message.len() != Word::LENGTH - r {
        return Err(Refusal::Length);
    }
    if out.len() < r {
        return Err(Refusal::Output);
    }
    put_parity(roots, message, out);
    Ok(r)
}
