//! No code: the interleaver's matrix, what calls on either side answer and leave, and the laws of places, of the round trip and of cutting.
//! `interleaver` makes these calls. Read specs/.
#![tactic(auto)]

// An array, of whose cells a depth has the first N, and no Vec: a library has no heap.
/// The sender's side: the place whose turn it is, and the cells, up to 64 rows of 255.
#[derive(Clone, Copy)]
pub struct Matrix {
    pub place: usize,
    pub cells: [u8; Matrix::CELLS],
}

impl Matrix {
    /// The most rows.
    pub const DEEPEST: usize = 64;
    /// The columns of a row.
    pub const ROW: usize = 255;
    /// The cells of the largest.
    pub const CELLS: usize = Self::DEEPEST * Self::ROW;
}

/// Of a place: the cell that its output is read from, and the place behind it.
#[derive(Clone, Copy)]
pub struct Step {
    pub cell: usize,
    pub next: usize,
}

// A flag beside place and cells and not an enum: callers hand the state in, and the laws speak of each value that it can have.
/// The receiving side: whether its first pass is over, its place and cells.
#[derive(Clone, Copy)]
pub struct Back {
    pub again: bool,
    pub matrix: Matrix,
}
