//! How the bytes of a case are cut into pieces.

/// Where a reading stands: the piece that is handed in is bytes[at..end]. The next pieces are `size` bytes long; where that is 0, as the seed says;
/// where that is 0 too, there is one.
#[derive(Clone, Copy)]
pub struct Cut {
    at: usize,
    end: usize,
    size: usize,
    seed: u64,
}

impl Cut {
    /// The first piece, of n bytes; the seed is the number's low 31 bits.
    pub fn start(number: u64, size: usize, n: usize) -> Cut {
        Cut {
            at: 0,
            end: n,
            size,
            seed: number % 0x80000000,
        }
    }

    /// The piece that is handed in.
    pub fn piece(self, bytes: &[u8]) -> &[u8] {
        let end = self.end.min(bytes.len());
        &bytes[self.at.min(end)..end]
    }

    /// Behind an answer: the rest of the piece.
    pub fn rest(self, taken: usize) -> Cut {
        Cut {
            at: self.at.wrapping_add(taken),
            ..self
        }
    }

    /// Behind a piece: the next one of n bytes in all; none at the end.
    pub fn more(self, taken: usize, n: usize) -> Option<Cut> {
        if self.end == n {
            return None;
        }
        let at = self.at.wrapping_add(taken);
        Some(Cut {
            at,
            end: piece_end(at, wanted(self.size, self.seed, n), n),
            seed: behind(self.seed),
            ..self
        })
    }
}

// The seed behind a piece.
fn behind(seed: u64) -> u64 {
    if seed == 0 {
        return 0;
    }
    seed % 0x80000000 * 69069 % 0x80000000 + 1
}

// The length of a piece that is wanted, of n bytes at most.
fn wanted(size: usize, seed: u64, n: usize) -> usize {
    if 0 < size {
        return size;
    }
    if seed == 0 {
        return n;
    }
    drawn(seed % 0x80000000 * 1103515245 % 0x80000000 / 8)
}

// The same from a number that looks random: often 0 bytes or 1, else up to 300.
fn drawn(number: u64) -> usize {
    match number / 256 % 8 {
        0 | 1 => 0,
        2 | 3 => 1,
        _ => (number / 2048 % 300) as usize,
    }
}

// Where a piece that begins at a place and wants so many bytes ends, of n in all.
fn piece_end(at: usize, wants: usize, n: usize) -> usize {
    at.min(n).saturating_add(wants).min(n)
}
