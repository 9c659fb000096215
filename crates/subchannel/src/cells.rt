//! The interleaver's receiving side byte by byte, its state lent: a call takes a byte at a time, and the cells are too many to move with each.
ghost use Rattle.std.specs.Prelude.{◌≡◌, false, ◌≤◌};
ghost use Rattle.interleaver_spec.specs.Running.{depth_limit, pull, beyond};
ghost use Rattle.subchannel.specs.Private.{as_byte};

use interleaver::{Back, Matrix};

// One received byte: stored in its cell, and the one N - 1 before it brought once there is one.
pub(crate) fn turn(back: &mut Back, depth: usize, byte: u8) -> Option<u8>
    requires { (depth ≤ depth_limit) × (beyond depth back.old.matrix.place ≡ false) }
    ensures { (result ≡ as_byte (pull depth back.old byte).0) × (back.new ≡ (pull depth back.old byte).1) }
{
    if depth < 2 {
        return Some(byte);
    }
    let place = back.matrix.place;
    let step = interleaver::step(depth, place);
    back.matrix.cells[step.cell] = byte;
    back.matrix.place = step.next;
    back.again = back.again || place + 1 == Matrix::ROW * depth;
    if back.again {
        return Some(back.matrix.cells[step.next]);
    }
    None
}
