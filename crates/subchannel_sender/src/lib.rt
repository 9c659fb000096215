//! The sender of a fixed sub-channel: words in groups of four, interleaved, and the marker before each group.
#![tactic(auto)]

ghost use Rattle.std.specs.Prelude.{◌≡◌};
ghost use Rattle.base.specs.Written.{as_written, outcome};
ghost use Rattle.subchannel_sender.specs.Sending.{sending, group_sending, as_counted, counting};

mod limits;

use base::{Refusal, Written};
use interleaver::Matrix;
use limits::Limits;
pub use subchannel_spec::Group;

// The cells come back of a refused call, too: so they stand beside what is written, and not in it.
/// The result of sending a group.
#[derive(Clone, Copy)]
pub struct Sent {
    pub written: Written,
    /// Bytes of the stream taken.
    pub taken: usize,
    pub matrix: Matrix,
}

/// Sends a whole stream.
pub fn send(parity: usize, depth: usize, stream: &[u8], out: &mut [u8]) -> Written
    ensures { outcome (as_written result) out.new ≡ sending parity depth stream.now out.old }
{
    let limits = Limits::of(parity, depth)?;
    let groups = limits.groups(stream.len());
    if out.len() / Group::LENGTH < groups {
        return Err(Refusal::Output);
    }
    limits.put_groups(groups, stream, out);
    Ok(Group::LENGTH * groups)
}

/// How many groups a stream of so many bytes has.
pub fn count(parity: usize, depth: usize, bytes: usize) -> Result<usize, Refusal>
    ensures { as_counted result ≡ counting parity depth bytes }
{
    Ok(Limits::of(parity, depth)?.groups(bytes))
}

// A refused call: the state as it was, and no byte taken.
fn unsent(matrix: Matrix, refusal: Refusal) -> Sent
    ensures { result ≡ record { written = Err refusal; taken = 0; matrix = matrix } }
{
    Sent {
        written: Err(refusal),
        taken: 0,
        matrix,
    }
}

/// Sends the next group of a stream: up to four messages of it, and flags where it has no more.
pub fn send_group(
    parity: usize,
    depth: usize,
    matrix: Matrix,
    stream: &[u8],
    out: &mut [u8],
) -> Sent
    ensures { (outcome (as_written result.written) out.new, result.taken, result.matrix) ≡
        group_sending parity depth matrix stream.now out.old }
{
    if interleaver::is_beyond(depth, matrix.place) {
        return unsent(matrix, Refusal::State);
    }
    let limits = match Limits::of(parity, depth) {
        Ok(limits) => limits,
        Err(refusal) => return unsent(matrix, refusal),
    };
    if out.len() < Group::LENGTH {
        return unsent(matrix, Refusal::Output);
    }
    let group = limits.group_of(stream);
    let next = limits.put_group(matrix, &group, out);
    Sent {
        written: Ok(Group::LENGTH),
        taken: (Group::WORDS * limits.message()).min(stream.len()),
        matrix: next,
    }
}
