//! The byte interleaver, running: each write is followed at once by a read.
#![tactic(auto)]

ghost use Rattle.std.specs.Prelude.{◌≡◌, false, ◌*◌, ◌≤◌};
ghost use Rattle.base.specs.Written.{as_written, outcome};
ghost use Rattle.interleaver_spec.specs.Places.{width};
ghost use Rattle.interleaver_spec.specs.Running.{depth_limit, fresh, fresh_back};
ghost use Rattle.interleaver_spec.specs.Running.{beyond, step_at, pushing, closing_bytes, closing, pulling};
ghost use Rattle.interleaver.specs.Private.{held, Ready, given};

mod turn;

use base::{Refusal, Written};
pub use interleaver_spec::{Back, Matrix, Step};
use turn::Turn;

// Two structs and not one over the state's type: no function takes both, and each state has the name here that it has where it is lent.
/// What a push answers.
#[derive(Clone, Copy)]
pub struct Pushed {
    pub written: Written,
    pub matrix: Matrix,
}

/// What a pull answers.
#[derive(Clone, Copy)]
pub struct Pulled {
    pub written: Written,
    pub back: Back,
}

/// The sender's side, no byte pushed yet.
pub fn fresh() -> Matrix
    ensures { result ≡ fresh }
{
    Matrix {
        place: 0,
        cells: [0; Matrix::CELLS],
    }
}

/// Pushes bytes through the cells; as many come out.
pub fn push(matrix: Matrix, depth: usize, bytes: &[u8], out: &mut [u8]) -> Pushed
    ensures { (outcome (as_written result.written) out.new, result.matrix) ≡ pushing depth matrix bytes.now out.old }
{
    let place = matrix.place;
    if is_beyond(depth, place) {
        return Pushed {
            written: Err(Refusal::State),
            matrix,
        };
    }
    if Matrix::DEEPEST < depth {
        return Pushed {
            written: Err(Refusal::Depth),
            matrix,
        };
    }
    if out.len() < bytes.len() {
        return Pushed {
            written: Err(Refusal::Output),
            matrix,
        };
    }
    let written = Ok(bytes.len());
    if depth < 2 {
        base::copy(bytes, out);
        return Pushed { written, matrix };
    }
    let mut cells = matrix.cells;
    let turn = Turn { depth, place }.send(&mut cells, bytes, out);
    Pushed {
        written,
        matrix: Matrix {
            place: turn.place,
            cells,
        },
    }
}

/// The closing push: N - 1 zeros behind the last byte, none at depth 0 and 1.
pub fn close(matrix: Matrix, depth: usize, out: &mut [u8]) -> Pushed
    ensures { (outcome (as_written result.written) out.new, result.matrix) ≡ closing depth matrix out.old }
{
    let zeros = [0u8; Matrix::CELLS];
    push(matrix, depth, &zeros[..closing_bytes(depth)], out)
}

/// The receiving side, nothing received yet.
pub fn fresh_back() -> Back
    ensures { result ≡ fresh_back }
{
    Back {
        again: false,
        matrix: fresh(),
    }
}

// The tests are those of `push`, but for the room that is looked for; each call keeps another state.
/// Takes received bytes in; those come back that N - 1 others have followed.
pub fn pull(back: Back, depth: usize, bytes: &[u8], out: &mut [u8]) -> Pulled
    ensures { (outcome (as_written result.written) out.new, result.back) ≡ pulling depth back bytes.now out.old }
{
    let place = back.matrix.place;
    if is_beyond(depth, place) {
        return Pulled {
            written: Err(Refusal::State),
            back,
        };
    }
    if Matrix::DEEPEST < depth {
        return Pulled {
            written: Err(Refusal::Depth),
            back,
        };
    }
    let kept = held(&back, depth, bytes.len());
    if out.len() < bytes.len() - kept {
        return Pulled {
            written: Err(Refusal::Output),
            back,
        };
    }
    let written = Ok(bytes.len() - kept);
    if depth < 2 {
        base::copy(bytes, out);
        return Pulled { written, back };
    }
    Pulled {
        written,
        back: take(back, depth, bytes, kept, out),
    }
}

// At depth 2 or more: the first `kept` bytes give none back, each other one gives one.
fn take(back: Back, depth: usize, bytes: &[u8], kept: usize, out: &mut [u8]) -> Back
    requires { Ready depth back bytes.now out.old kept }
    ensures { (out.new, result) ≡ given depth back bytes.now out.old }
{
    let place = back.matrix.place;
    let mut cells = back.matrix.cells;
    let first = Turn { depth, place }.keep(&mut cells, &bytes[..kept]);
    if kept == bytes.len() {
        return Back {
            again: back.again,
            matrix: Matrix {
                place: first.place,
                cells,
            },
        };
    }
    let last = first.give(&mut cells, &bytes[kept..], out);
    Back {
        again: true,
        matrix: Matrix {
            place: last.place,
            cells,
        },
    }
}

/// Whether a place is none of the N cells.
pub fn is_beyond(depth: usize, place: usize) -> bool
    ensures { result ≡ beyond depth place }
{
    depth >= 2 && depth <= place / Matrix::ROW
}

// No Option: 0 and 0 is a step that no place has, and who calls has ruled out the places without one: an Option would leave him a way that
// is never gone.
/// The cell that the output of a place is read from, and the place behind it: for who goes through cells of his own byte by byte.
pub fn step(depth: usize, place: usize) -> Step
    ensures { result ≡ step_at depth place }
{
    if depth < 2 || Matrix::DEEPEST < depth || is_beyond(depth, place) {
        return Step { cell: 0, next: 0 };
    }
    let turn = Turn { depth, place };
    Step {
        cell: turn.cell(),
        next: turn.next().place,
    }
}

// The bytes of the closing push; where the depth is refused, none.
fn closing_bytes(depth: usize) -> usize
    ensures { (result ≤ depth_limit * width) × (depth ≤ depth_limit → result ≡ closing_bytes depth) }
{
    if depth < 2 || Matrix::DEEPEST < depth {
        return 0;
    }
    Matrix::ROW * depth - 1
}

// How many of n received bytes give none back.
fn held(back: &Back, depth: usize, n: usize) -> usize
    requires { (depth ≤ depth_limit) × (beyond depth back.now.matrix.place ≡ false) }
    ensures { (result ≡ held depth back.now.again back.now.matrix.place n) × (result ≤ n) }
{
    if depth < 2 || back.again {
        return 0;
    }
    n.min(Matrix::ROW * depth - 1 - back.matrix.place)
}
