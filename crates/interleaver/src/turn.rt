//! A turn of the matrix, at a depth that has cells: where its byte goes, and whose turn is next.
ghost use Rattle.std.specs.Prelude.{◌≡◌, ◌*◌, ◌≤◌, ◌<◌, length};
ghost use Rattle.base.specs.Calls.{run};
ghost use Rattle.interleaver_spec.specs.Places.{width, cell};
ghost use Rattle.interleaver_spec.specs.Running.{depth_limit, size, next, matrix, sent, taken};
ghost use Rattle.interleaver.specs.Private.{left};

use interleaver_spec::Matrix;

// From output to output the column moves on by so many, around 255.
const STEP: usize = 53;

// The place whose turn it is, one of the N cells.
#[derive(Clone, Copy)]
pub(crate) struct Turn {
    pub depth: usize,
    pub place: usize,
    ghost deep: { 2 ≤ depth },
    ghost few: { depth ≤ depth_limit },
    ghost inside: { place < size depth },
}

impl Turn {
    // The cell that the output of the place is read from.
    pub(crate) fn cell(self) -> usize
        ensures { (result ≡ cell self.depth self.place) × (result < depth_limit * width) }
    {
        let turns = self.place / Matrix::ROW;
        let row = (self.place - (Matrix::ROW - 1) * turns) % self.depth;
        let column = STEP * self.place % Matrix::ROW;
        row * Matrix::ROW + column
    }

    // The turn behind it, around N.
    pub(crate) fn next(self) -> Self
        ensures { (result.depth ≡ self.depth) × (result.place ≡ next self.depth self.place) }
    {
        let depth = self.depth;
        let place = self.place + 1;
        if place < Matrix::ROW * depth {
            return Turn { depth, place };
        }
        Turn { depth, place: 0 }
    }

    // The sender's bytes. Not one loop with the two below: which cell is written and which is read is all that they do.
    // The output goes by the bytes' numbers, here and in `give`: of `iter_mut().zip(..)` a proof knows the length alone.
    pub(crate) fn send(self, cells: &mut [u8; Matrix::CELLS], bytes: &[u8], out: &mut [u8]) -> Self
        requires { length bytes.now ≤ length out.old }
        ensures { (out.new, matrix result.place cells.new) ≡ left (sent self.depth) bytes.now 0 (matrix self.place cells.old) out.old }
    {
        let mut turn = self;
        for (i, &byte) in bytes.iter().enumerate() {
            cells[turn.place] = byte;
            out[i] = cells[turn.cell()];
            turn = turn.next();
        }
        turn
    }

    // Received bytes stored, none of which gives one back.
    pub(crate) fn keep(self, cells: &mut [u8; Matrix::CELLS], bytes: &[u8]) -> Self
        ensures { (result.depth ≡ self.depth)
            × (matrix result.place cells.new ≡ (run (taken self.depth) (matrix self.place cells.old) bytes.now).1) }
    {
        let mut turn = self;
        for &byte in bytes {
            cells[turn.cell()] = byte;
            turn = turn.next();
        }
        turn
    }

    // Received bytes stored, each of which gives one back.
    pub(crate) fn give(self, cells: &mut [u8; Matrix::CELLS], bytes: &[u8], out: &mut [u8]) -> Self
        requires { length bytes.now ≤ length out.old }
        ensures { (out.new, matrix result.place cells.new) ≡ left (taken self.depth) bytes.now 0 (matrix self.place cells.old) out.old }
    {
        let mut turn = self;
        // The byte by its number too: fetched before its cell is known, it takes a third more time.
        for i in 0..bytes.len() {
            let cell = turn.cell();
            cells[cell] = bytes[i];
            turn = turn.next();
            out[i] = cells[turn.place];
        }
        turn
    }
}
