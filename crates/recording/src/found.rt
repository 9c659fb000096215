//! Which answers a call for a recording's next packet passes over, and what it finds in the others.
ghost use Rattle.std.specs.Prelude.{◌≡◌};
ghost use Rattle.recording.specs.Found.{as_found};
ghost use Rattle.recording.specs.Private.{passed, found_in};

use channel::Answer;
use packet::{Delivery, Judged};

// Whether an answer is passed over: all but a packet and "more wanted" are.
pub(crate) fn is_passed(answer: Answer) -> bool
    ensures { result ≡ passed answer }
{
    !matches!(answer, Answer::More | Answer::Said(Judged::Packet(_)))
}

// The packet of an answer that is not passed over; none where more is wanted.
pub(crate) fn packet_in(answer: Answer) -> Option<Delivery>
    ensures { as_found (Ok result) ≡ found_in answer }
{
    match answer {
        Answer::Said(Judged::Packet(delivery)) => Some(delivery),
        _ => None,
    }
}
