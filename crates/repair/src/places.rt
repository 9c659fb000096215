//! The altered places of a word and their bytes. A polynomial has its lowest coefficient first here.
ghost use Rattle.std.specs.Prelude.{◌≡◌, reverse, ◌≤◌, length, take};
ghost use Rattle.word_spec.specs.Word.{values_from, onto};
ghost use Rattle.repair.specs.Way.{low, error_at, errors};

use crate::rows::Solution;
use parity::Word;

// So many powers of alpha as blocks of 64 give: the points of all places, and one more.
const POINTS: usize = 4 * Word::MOST;

// The coefficients with the highest first, and zeros behind them.
fn turned(v: &Solution) -> [u8; 33]
    ensures { take (length v.now) result ≡ reverse v.now }
{
    let v = v.numbers();
    let mut u = [0u8; 33];
    let n = v.len();
    u[..n].copy_from_slice(v);
    u[..n].reverse();
    u
}

// The values at 1, alpha, .. alpha^255, 64 at once: at the points of all places, the last place first.
fn at_places(v: &Solution) -> [u8; POINTS]
    ensures { result ≡ values_from (reverse v.now) 0 256 }
{
    let n = v.numbers().len();
    let u = turned(v);
    let mut z = [0u8; POINTS];
    // By index: of what is written through chunks_mut a proof knows the length alone.
    for k in 0..4 {
        let at = k * Word::MOST;
        let l = parity::at_powers(at, &u[..n]);
        z[at..at + Word::MOST].copy_from_slice(&l);
    }
    z
}

// The byte to be added at the place of the point x, where the value is l. At a root three sums go together: a, the value of the
// coefficients passed, which is the next one of the quotient by the root; b, the quotient's own value; and its product with the sums.
fn error_at(l: u8, v: &Solution, s: &[u8; Word::MOST], x: u8) -> u8
    requires { l ≡ low v.now x }
    ensures { result ≡ error_at v.now s.now x }
{
    if l != 0 {
        return 0;
    }
    let v = v.numbers();
    let mut a: u8 = 0;
    let mut b: u8 = 0;
    let mut sum: u8 = 0;
    // By index, from the last on: a chain would hand the three sums on as a triple, and is no plainer.
    for i in (1..v.len()).rev() {
        a = field::plus(v[i], field::times(x, a));
        b = field::plus(a, field::times(x, b));
        sum = field::plus(field::times(a, s[i - 1]), sum);
    }
    field::times(sum, field::inverse(field::times(x, b)))
}

// Adds its byte at every place, the last one first, whose point is 1.
pub fn add(v: &Solution, s: &[u8; Word::MOST], word: &mut [u8])
    requires { length word.old ≤ 256 }
    ensures { word.new ≡ onto (errors v.now s.now (length word.old)) word.old }
{
    let z = at_places(v);
    let n = word.len();
    let mut x: u8 = 1;
    // By index: of what is written through iter_mut().rev() a proof knows the length alone.
    for i in (0..n).rev() {
        word[i] = field::plus(error_at(z[n - 1 - i], v, s, x), word[i]);
        x = field::times(x, field::ALPHA);
    }
}
