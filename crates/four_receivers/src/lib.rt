//! One to four fixed sub-channels: the receiver. What is small of its state goes by value, the interleavers' cells are lent: they are 64 KiB.
#![tactic(auto)]

ghost use Rattle.std.specs.Prelude.{◌≡◌, []};
ghost use Rattle.four_receivers.specs.Call.{seated, seat, whole, seats, fresh_receiver, get, put, sound_four, known};
ghost use Rattle.four_receivers.specs.Call.{configuring, ConfiguringIs, hear_four, FourIs};
ghost use Rattle.base.specs.Choice.{pick};
ghost use Rattle.base.specs.Refusals.{number};
ghost use Rattle.subchannel.specs.Call.{sound, untold};

use base::Refusal;
use channel::Answer;
use interleaver::{Back, Matrix};
use packet::Judged;
use subchannel::{Lane, Sub};

// A flag beside lane and place and not an enum: callers hand the state in, and the laws speak of each value that it can have.
/// A sub-channel's state but for its cells.
#[derive(Clone, Copy)]
pub struct Seat {
    pub lane: Lane,
    /// Whether the interleaver's first pass is over.
    pub again: bool,
    /// Its place among the cells.
    pub place: usize,
}

// Four fields and no array: the definitions and laws of specs/ and of the crates above name the four.
/// The receiver's state but for the cells.
#[derive(Clone, Copy)]
pub struct Receiver {
    pub a: Seat,
    pub b: Seat,
    pub c: Seat,
    pub d: Seat,
}

// The receiver comes back of a refused call, too: so it stands beside the answer, and not in it.
/// The result of configuring.
#[derive(Clone, Copy)]
pub struct Configuring {
    pub answer: Result<(), Refusal>,
    pub receiver: Receiver,
}

/// The result of a call.
#[derive(Clone, Copy)]
pub struct Hearing {
    pub answer: Answer,
    /// Bytes of the piece taken.
    pub taken: usize,
    pub receiver: Receiver,
}

impl Seat {
    // A sub-channel without its cells. By this name and no `From`: its clause names the definition of it (`seat`).
    fn of(sub: Sub) -> Self
        ensures { result ≡ seat sub }
    {
        Seat {
            lane: sub.lane,
            again: sub.back.again,
            place: sub.back.matrix.place,
        }
    }

    // With its cells.
    fn with(self, cells: [u8; Matrix::CELLS]) -> Sub
        ensures { result ≡ seated self cells }
    {
        Sub {
            lane: self.lane,
            back: Back {
                again: self.again,
                matrix: Matrix {
                    place: self.place,
                    cells,
                },
            },
        }
    }

    // Whether no count is beyond its limit, nor a setting, nor the place among the cells, whatever these hold.
    fn sound(self) -> bool
        ensures { result ≡ sound (seated self []) }
    {
        self.with([0; Matrix::CELLS]).sound()
    }
}

impl Receiver {
    /// The sub-channels.
    pub const MOST: usize = 4;

    /// No sub-channel is configured. The cells may then hold any bytes: configuring a sub-channel makes its own zero.
    pub fn fresh() -> Self
        ensures { result ≡ seats fresh_receiver }
    {
        let seat = Seat::of(Sub::untold());
        Receiver {
            a: seat,
            b: seat,
            c: seat,
            d: seat,
        }
    }

    /// Whether no count of the four is beyond its limit.
    pub fn sound(self) -> bool
        ensures { result ≡ sound_four (whole self []) }
    {
        self.a.sound() && self.b.sound() && self.c.sound() && self.d.sound()
    }

    // four_senders has a `put` and a `get` of this shape: shared, they would be one more public type below both, with two public functions, and
    // each definition would be one field deeper.
    // One of the four exchanged.
    fn put(self, number: usize, seat: Seat) -> Self
        ensures { result ≡ seats (put (whole self []) number (seated seat [])) }
    {
        match number {
            0 => Receiver { a: seat, ..self },
            1 => Receiver { b: seat, ..self },
            2 => Receiver { c: seat, ..self },
            _ => Receiver { d: seat, ..self },
        }
    }

    // A refused configuring: the state as it was.
    fn unconfigured(self, refusal: Refusal) -> Configuring
        ensures { result ≡ record { answer = Err refusal; receiver = self } }
    {
        Configuring {
            answer: Err(refusal),
            receiver: self,
        }
    }

    /// Tells a sub-channel its settings, also again: it begins anew.
    pub fn configure(
        self,
        number: usize,
        parity: usize,
        depth: usize,
        cells: &mut [[u8; Matrix::CELLS]; Receiver::MOST],
    ) -> Configuring
        ensures { ConfiguringIs cells.old (configuring (whole self cells.old) number parity depth)
            result cells.new }
    {
        if !self.sound() {
            return self.unconfigured(Refusal::State);
        }
        if 3 < number {
            return self.unconfigured(Refusal::SubChannel);
        }
        let told = Sub::told(parity, depth);
        if let Err(refusal) = told.answer {
            return self.unconfigured(refusal);
        }
        let zeros = told.sub.back.matrix.cells;
        cells[number] = zeros;
        Configuring {
            answer: Ok(()),
            receiver: self.put(number, Seat::of(told.sub)),
        }
    }

    // One of the four; 3 stands for every number above 2.
    fn get(self, number: usize) -> Seat
        ensures { result ≡ seat (get (whole self []) number) }
    {
        match number {
            0 => self.a,
            1 => self.b,
            2 => self.c,
            _ => self.d,
        }
    }

    // A refused call: the state as it was, and no byte taken. As `unheard` of `subchannel`, of another state.
    fn unheard(self, refusal: Refusal) -> Hearing
        ensures { result ≡ record { answer = Answer.Said (Judged.Refused (number refusal)); taken = 0; receiver = self } }
    {
        Hearing {
            answer: Answer::Said(Judged::Refused(refusal as u8)),
            taken: 0,
            receiver: self,
        }
    }

    // A sub-channel that is configured.
    fn told(self, number: usize) -> Option<Seat>
        ensures { result ≡ pick (known (whole self []) number) (Some (seat (get (whole self []) number))) None }
    {
        let seat = self.get(number);
        if number <= 3 && seat.lane.settings.told {
            return Some(seat);
        }
        None
    }

    /// One call on a sub-channel, with the cells of all and its own two buffers.
    pub fn hear(
        self,
        number: usize,
        cells: &mut [[u8; Matrix::CELLS]; Receiver::MOST],
        recv: &mut [u8],
        word: &mut [u8],
        piece: &[u8],
    ) -> Hearing
        ensures { FourIs cells.old
            (hear_four (whole self cells.old) number recv.old word.old piece.now)
            result cells.new recv.new word.new }
    {
        if !self.sound() {
            return self.unheard(Refusal::State);
        }
        let Some(seat) = self.told(number) else {
            return self.unheard(Refusal::SubChannel);
        };
        let own = cells[number];
        let heard = seat.with(own).hear(recv, word, piece);
        let behind = heard.sub.back.matrix.cells;
        cells[number] = behind;
        Hearing {
            answer: heard.answer,
            taken: heard.taken,
            receiver: self.put(number, Seat::of(heard.sub)),
        }
    }
}
