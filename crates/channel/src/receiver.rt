//! The receiver: its state by value, the receive buffer and the word buffer lent.
ghost use Rattle.std.specs.Prelude.{◌≡◌, true, false, ◌+◌, ◌≤◌, ◌<◌, length, drop};
ghost use Rattle.channel_spec.specs.Sender.{message_bytes, word_bytes};
ghost use Rattle.channel.specs.Call.{
  memory,
  counts,
  fresh_receiver,
  owes,
  sound_lock,
  sound,
  roomy,
  hear_on,
  hear_call,
  HearingIs,
};
ghost use Rattle.channel.specs.Private.{HandedIs, SoughtIs, FilledIs};

use crate::answer::Hearing;
use crate::locked::Locked;
use crate::{hunting, word};
use base::Refusal;
use channel_spec::{Answer, Block, Hunting};
use packet::Judged;
use std::ops::ControlFlow;
use std::ops::ControlFlow::{Break, Continue};
use stream::FrameReader;

// A flag beside the lock's counts and not an Option of them: callers hand the state in, and the laws speak of each value that it can have.
/// The receiver's state.
#[derive(Clone, Copy)]
pub struct Receiver {
    pub locked: bool,
    pub hunting: Hunting,
    pub lock: Locked,
    pub frame: FrameReader,
}

impl Receiver {
    /// The flag between frames.
    pub const FLAG: u8 = FrameReader::FLAG;

    /// The marker before each word.
    pub const MARKER: [u8; 4] = Hunting::MARKER;

    /// Bytes that the receive buffer needs.
    pub const RAW: usize = FrameReader::RAW;

    /// Bytes that the word buffer needs.
    pub const WORD: usize = Block::WORD;

    /// Hunting, and waiting for a flag.
    pub fn fresh() -> Self
        ensures { result ≡ fresh_receiver }
    {
        Receiver::lost_at(Hunting::fresh())
    }

    /// Whether the buffers are as long as the receiver asks.
    pub fn has_room(recv: &[u8], word: &[u8]) -> bool
        ensures { result ≡ roomy recv.now word.now }
    {
        recv.len() >= Self::RAW && word.len() >= Self::WORD
    }

    /// Whether no count is beyond its limit.
    pub fn sound(self) -> bool
        ensures { result ≡ sound self }
    {
        self.frame.sound() && self.lock.sound()
    }

    // Message bytes of a stored word that are not handed on yet.
    fn owed(self) -> usize
        requires { self.lock.handed ≤ message_bytes }
        ensures { result ≡ owes self }
    {
        if self.locked && self.lock.word == Block::WORD {
            Block::MESSAGE - self.lock.handed
        } else {
            0
        }
    }

    // The rest of a stored word goes on to the frame reader, up to the first answer.
    fn hand_on(self, recv: &mut [u8], word: &[u8]) -> ControlFlow<Hearing, Self>
        requires { (sound self ≡ true) × (roomy recv.old word.now ≡ true) }
        ensures { HandedIs (memory self recv.old word.now) result recv.new }
    {
        if self.owed() == 0 {
            return Continue(self);
        }
        let lock = self.lock;
        let read = self.frame.read(recv, &word[lock.handed..Block::MESSAGE]);
        let receiver = Receiver {
            lock: Locked {
                handed: lock.handed + read.taken,
                ..lock
            },
            frame: read.frame,
            ..self
        };
        match read.heard {
            None => Continue(receiver),
            Some(judged) => Break(Hearing {
                answer: Answer::Said(judged),
                taken: 0,
                receiver,
            }),
        }
    }

    // Locked, behind a word: up to four bytes that should be the marker.
    fn compare(self, piece: &[u8]) -> ControlFlow<Hearing, (usize, Self)>
        requires { (self.locked ≡ true) × (self.lock.word ≡ word_bytes) × (self.lock.marker ≤ 3) × (owes self ≡ 0) }
        ensures { SoughtIs self piece.now result }
    {
        let lock = self.lock;
        let taken = (4 - lock.marker).min(piece.len());
        let hunting = hunting::shifted(self.hunting, &piece[..taken]);
        let marker = lock.marker + taken;
        if marker < 4 {
            return Break(Hearing {
                answer: Answer::More,
                taken,
                receiver: Receiver {
                    hunting,
                    lock: Locked { marker, ..lock },
                    ..self
                },
            });
        }
        if hunting.at_marker() {
            return Continue((taken, Receiver::locked_at(hunting, self.frame)));
        }
        Break(Hearing {
            answer: Answer::LockLost,
            taken,
            receiver: Receiver::lost_at(hunting),
        })
    }

    // Behind a marker.
    fn locked_at(hunting: Hunting, frame: FrameReader) -> Self
        ensures { result ≡ record { locked = true; hunting = hunting; lock = counts 0 0 0; frame = frame } }
    {
        Receiver {
            locked: true,
            hunting,
            lock: Locked::fresh(),
            frame,
        }
    }

    // Hunting anew, as where lock is lost: any open packet is dropped.
    fn lost_at(hunting: Hunting) -> Self
        ensures { result ≡ record { locked = false; hunting = hunting; lock = counts 0 0 0; frame = fresh_receiver.frame } }
    {
        Receiver {
            locked: false,
            hunting,
            lock: Locked::fresh(),
            frame: FrameReader::fresh(),
        }
    }

    // Hunting: bytes up to the marker.
    fn hunt(self, piece: &[u8]) -> ControlFlow<Hearing, (usize, Self)>
        requires { self.locked ≡ false }
        ensures { SoughtIs self piece.now result }
    {
        let found = hunting::hunt(self.hunting, piece);
        let hunting = found.hunting;
        match found.taken {
            Some(taken) => Continue((taken, Receiver::locked_at(hunting, self.frame))),
            None => Break(Hearing {
                answer: Answer::More,
                taken: piece.len(),
                receiver: Receiver { hunting, ..self },
            }),
        }
    }

    // Bytes up to where a word's bytes are wanted.
    fn seek(self, piece: &[u8]) -> ControlFlow<Hearing, (usize, Self)>
        requires { (sound_lock self.lock ≡ true) × (owes self ≡ 0) }
        ensures { SoughtIs self piece.now result }
    {
        if !self.locked {
            return self.hunt(piece);
        }
        if self.lock.word < Block::WORD {
            return Continue((0, self));
        }
        self.compare(piece)
    }

    // Bytes of a word, from `at` on. The whole word gives the block's answer.
    fn fill(self, word: &mut [u8], piece: &[u8], at: usize) -> Hearing
        requires { (self.locked ≡ true) × (self.lock.word < word_bytes) × (word_bytes ≤ length word.old) × (at ≤ length piece.now) }
        ensures { FilledIs self word.old (drop at piece.now) at result word.new }
    {
        let lock = self.lock;
        let n = (Block::WORD - lock.word).min(piece.len() - at);
        let taken = at + n;
        let count = lock.word + n;
        base::copy(&piece[at..taken], &mut word[lock.word..count]);
        if count < Block::WORD {
            return Hearing {
                answer: Answer::More,
                taken,
                receiver: Receiver {
                    lock: Locked {
                        word: count,
                        ..lock
                    },
                    ..self
                },
            };
        }
        let condition = word::settle(word, piece, at, n);
        Hearing {
            answer: Answer::Block(condition),
            taken,
            receiver: Receiver {
                lock: Locked::whole(),
                ..self
            },
        }
    }

    // A call behind refusals 10 and 11: a stored word's rest, then bytes up to a word's, then those.
    fn hear_on(self, recv: &mut [u8], word: &mut [u8], piece: &[u8]) -> Hearing
        requires { (sound self ≡ true) × (roomy recv.old word.old ≡ true) }
        ensures { HearingIs (hear_on (memory self recv.old word.old) piece.now)
            result recv.new word.new }
    {
        let receiver = match self.hand_on(recv, word) {
            Continue(receiver) => receiver,
            Break(heard) => return heard,
        };
        match receiver.seek(piece) {
            Continue((at, next)) => next.fill(word, piece, at),
            Break(heard) => heard,
        }
    }

    // The two buffers come one by one, here and wherever a receiver is called: each is lent by itself, also from C (`aas_channel_read`), and a struct of
    // both would be made for each call and taken apart in it.
    /// One call: at most one answer, and no byte behind the one that caused it is taken.
    pub fn hear(self, recv: &mut [u8], word: &mut [u8], piece: &[u8]) -> Hearing
        ensures { HearingIs (hear_call (memory self recv.old word.old) piece.now)
            result recv.new word.new }
    {
        if !self.sound() {
            return Hearing {
                answer: Answer::Said(Judged::Refused(Refusal::State as u8)),
                taken: 0,
                receiver: self,
            };
        }
        if !Receiver::has_room(recv, word) {
            return Hearing {
                answer: Answer::Said(Judged::Refused(Refusal::Buffer as u8)),
                taken: 0,
                receiver: self,
            };
        }
        self.hear_on(recv, word, piece)
    }
}
