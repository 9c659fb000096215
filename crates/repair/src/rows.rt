//! The equations of the locator, and their solution by elimination. A row has room for 33 coefficients, as many as R = 64 needs.
ghost use Rattle.std.specs.Prelude.{◌≡◌, List, [], ◌∷◌, map, find, unwrap_or, ℕ, ◌≤◌, ◌<◌, length, take};
ghost use Rattle.repair.specs.Way.{dot, windows, begins, normal, reduced, extended, solve, locator};

use parity::{Roots, Word};
use std::marker::Model;

// A solution: the first n numbers of v, one at least. No Vec, since a library has no heap: the array has room for the longest.
#[derive(Drop)]
pub struct Solution {
    n: usize,
    v: [u8; 33],
}

impl Model for Solution {
    ghost Value = { List ℕ };

    ghost view = { λ s. take s.n s.v };

    ghost invariant = { (λ s. (0 < s.n) × (s.n ≤ 33)) };
}

impl Solution {
    // The number 1 alone.
    fn one() -> Solution
        ensures { result ≡ 1 ∷ [] }
    {
        let mut v = [0u8; 33];
        v[0] = 1;
        Solution { n: 1, v }
    }

    // Its numbers.
    pub fn numbers(&self) -> &[u8]
        ensures { (result.now ≡ self.now) × (0 < length result.now) × (length result.now ≤ 33) }
    {
        &self.v[..self.n]
    }

    // The first unknown from the others by the pivot, and before them.
    fn extended(self, p: [u8; 33]) -> Solution
        requires { length self ≤ 32 }
        ensures { result ≡ extended p self }
    {
        let mut v = [0u8; 33];
        v[0] = dot(self.numbers(), &p);
        v[1..].copy_from_slice(&self.v[..32]);
        Solution { n: self.n + 1, v }
    }
}

// The sum of the products.
pub fn dot(u: &[u8], row: &[u8]) -> u8
    requires { length u.now ≤ length row.now }
    ensures { result ≡ dot u.now row.now }
{
    u.iter()
        .zip(row)
        .fold(0, |a, (x, y)| field::plus(a, field::times(*x, *y)))
}

// The n equations of the sums s, each a row that begins one further on; zeros behind them.
fn equations(n: usize, s: &[u8; Word::MOST]) -> [[u8; 33]; 32]
    requires { n ≤ 32 }
    ensures { take n result ≡ windows 0 n s.now }
{
    let mut m = [[0u8; 33]; 32];
    // By index, each row by itself: of what is written through iter_mut().zip(..) a proof knows the length alone, into m[i] nothing that has a name.
    for i in 0..n {
        let mut row = [0u8; 33];
        row.copy_from_slice(&s[i..i + 33]);
        m[i] = row;
    }
    m
}

// The first row that does not begin with zero.
fn pivot(rows: &[[u8; 33]]) -> Option<[u8; 33]>
    ensures { result ≡ find begins rows.now }
{
    rows.iter().find(|row| row[0] != 0).copied()
}

// A row made to begin with 1, which is left out.
fn normal(row: [u8; 33]) -> [u8; 33]
    ensures { result ≡ normal row }
{
    let k = field::inverse(row[0]);
    let mut out = [0u8; 33];
    parity::subtract(k, &row[1..], &mut out);
    out
}

// A row without its first coefficient, less that times the pivot.
fn reduced(p: [u8; 33], row: [u8; 33]) -> [u8; 33]
    ensures { result ≡ reduced p row }
{
    let k = row[0];
    let mut out = [0u8; 33];
    out[..32].copy_from_slice(&row[1..]);
    if k != 0 {
        parity::subtract(k, &p, &mut out);
    }
    out
}

// Takes the first unknown out of every row.
fn reduce(p: [u8; 33], rows: &mut [[u8; 33]])
    ensures { rows.new ≡ map (reduced p) rows.old }
{
    for row in rows.iter_mut() {
        *row = reduced(p, *row);
    }
}

// A least solution of at most n numbers; the rows are used up.
fn solve(n: usize, rows: &mut [[u8; 33]]) -> Option<Solution>
    requires { n ≤ 33 }
    ensures { unwrap_or result [] ≡ solve n rows.old }
{
    if n == 0 {
        return None;
    }
    let Some(row) = pivot(rows) else {
        return Some(Solution::one());
    };
    let p = normal(row);
    reduce(p, rows);
    let rest = solve(n - 1, rows)?;
    Some(rest.extended(p))
}

// The locator of a word with so many roots and the sums s.
pub fn locator(roots: Roots, s: &[u8; Word::MOST]) -> Option<Solution>
    ensures { unwrap_or result [] ≡ locator roots.count s.now }
{
    let h = roots.count / 2;
    let n = roots.count - h;
    let mut rows = equations(n, s);
    solve(h + 1, &mut rows[..n])
}
