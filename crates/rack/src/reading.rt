//! The plain stream, read with its state as numbers.
ghost use Rattle.std.specs.Prelude.{◌≡◌};
ghost use Rattle.rack.specs.Answers.{frame_of, stream_numbers};
ghost use Rattle.rack.specs.Call.{reading};

use crate::answers;
use crate::answers::Numbered;
use stream::FrameReader;

// The numbers behind a call.
pub(crate) fn numbers(taken: usize, told: Numbered, frame: FrameReader) -> [u64; 12]
    ensures { result ≡ stream_numbers taken told frame }
{
    let d = told.delivery;
    [
        taken as u64,
        u64::from(d.format),
        u64::from(d.number),
        u64::from(d.key),
        u64::from(d.port),
        u64::from(d.sequence),
        d.length as u64,
        told.place as u64,
        u64::from(frame.opened),
        frame.raw as u64,
        frame.stored as u64,
        frame.place as u64,
    ]
}

/// One call on a plain stream: 0 more wanted, 256 a packet, or the number of a refusal. Refused with 10 or 11, it changes nothing.
pub fn aas_stream_read(state: &mut [u64; 12], recv: &mut [u8], piece: &[u8]) -> usize
    ensures { (result, state.new, recv.new) ≡ reading state.old recv.old piece.now }
{
    let frame = answers::frame_by(state[8], state[9], state[10], state[11]);
    let read = frame.read(recv, piece);
    let told = answers::of_heard(read.heard);
    if !answers::of_call(told.number) {
        *state = numbers(read.taken, told, read.frame);
    }
    told.number
}
