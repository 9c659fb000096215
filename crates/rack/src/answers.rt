//! What an answer tells, in numbers.
ghost use Rattle.std.specs.Prelude.{◌≡◌};
ghost use Rattle.packet_spec.specs.Frame.{no_delivery};
ghost use Rattle.rack.specs.Answers.{bare, of_judged, of_heard, of_block, of_answer, of_call, frame_by};

use base::Refusal;
use channel::Answer;
use channel_spec::Condition;
use packet::{Delivery, Judged};
use stream::FrameReader;

// The numbers of answers, for C; those below are the paper's, and 0 is "more wanted".
#[derive(Clone, Copy)]
enum Number {
    Packet = 256,
    LockLost = 257,
    Clean = 258,
    Repaired = 259,
    Beyond = 260,
}

// The first of them. A word repaired in n places is told as this and n.
pub(crate) const FIRST: usize = Number::Packet as usize;

// An answer by its number, and what it tells besides; zeros where it tells nothing. Numbers and no enum: they are what C is told.
#[derive(Clone, Copy)]
pub(crate) struct Numbered {
    pub number: usize,
    pub delivery: Delivery,
    // A place in the receive buffer: of the payload, or of the first wrong byte behind 7D.
    pub place: usize,
    // Places of a block that were put right.
    pub repaired: usize,
}

// No packet.
fn none() -> Delivery
    ensures { result ≡ no_delivery }
{
    Delivery {
        format: 0,
        number: 0,
        key: 0,
        port: 0,
        sequence: 0,
        length: 0,
    }
}

impl Numbered {
    // A number alone.
    fn bare(number: usize) -> Self
        ensures { result ≡ bare number }
    {
        Numbered {
            number,
            delivery: none(),
            place: 0,
            repaired: 0,
        }
    }
}

// What is told of a closed frame, or of a call refused.
// Functions and no `From`, here and below: each clause names the definition of its name.
fn of_judged(judged: Judged) -> Numbered
    ensures { result ≡ of_judged judged }
{
    match judged {
        Judged::Packet(delivery) => Numbered {
            delivery,
            place: packet::payload_at(delivery.key),
            ..Numbered::bare(Number::Packet as usize)
        },
        Judged::Refused(n) => Numbered::bare(usize::from(n)),
        Judged::Broken(place) => Numbered {
            place,
            ..Numbered::bare(Refusal::Escape as usize)
        },
    }
}

// .. of a call on a plain stream.
pub(crate) fn of_heard(heard: Option<Judged>) -> Numbered
    ensures { result ≡ of_heard heard }
{
    match heard {
        None => Numbered::bare(0),
        Some(judged) => of_judged(judged),
    }
}

// .. of a block.
fn of_block(condition: Condition) -> Numbered
    ensures { result ≡ of_block condition }
{
    match condition {
        Condition::Clean => Numbered::bare(Number::Clean as usize),
        Condition::Repaired(repaired) => Numbered {
            repaired,
            ..Numbered::bare(Number::Repaired as usize)
        },
        Condition::Beyond => Numbered::bare(Number::Beyond as usize),
    }
}

// .. of a call on the channel.
pub(crate) fn of_answer(answer: Answer) -> Numbered
    ensures { result ≡ of_answer answer }
{
    match answer {
        Answer::More => Numbered::bare(0),
        Answer::Said(judged) => of_judged(judged),
        Answer::Block(condition) => of_block(condition),
        Answer::LockLost => Numbered::bare(Number::LockLost as usize),
    }
}

// Whether a number refuses a call, and not a frame.
pub(crate) fn of_call(number: usize) -> bool
    ensures { result ≡ of_call number }
{
    number == Refusal::State as usize || number == Refusal::Buffer as usize
}

// The frame reader's state from its numbers, as C lends them: every flag but 0 is set.
pub(crate) fn frame_by(opened: u64, raw: u64, stored: u64, place: u64) -> FrameReader
    ensures { result ≡ frame_by opened raw stored place }
{
    FrameReader {
        opened: opened != 0,
        raw: raw as usize,
        stored: stored as usize,
        place: place as usize,
    }
}
