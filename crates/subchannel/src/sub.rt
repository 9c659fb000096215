//! One sub-channel: its state by value, the receive buffer and the word buffer lent.
ghost use Rattle.std.specs.Prelude.{◌≡◌, true, false};
ghost use Rattle.base.specs.Refusals.{number};
ghost use Rattle.channel.specs.Call.{roomy};
ghost use Rattle.subchannel.specs.Call.{Fine, memory, fresh_sub, untold, telling, as_telling, owes, sound, hear_on, hear_call};
ghost use Rattle.subchannel.specs.Call.{HearingIs};
ghost use Rattle.subchannel.specs.Private.{spare, BytesIs};

use crate::counts::Counts;
use crate::fill;
use crate::lane::Lane;
use base::Refusal;
use channel::{Answer, Hunting, Receiver};
use interleaver::Back;
use packet::Judged;
use stream::FrameReader;
use subchannel_spec::{Group, Settings};

/// The state of one sub-channel.
#[derive(Clone, Copy)]
pub struct Sub {
    pub lane: Lane,
    /// The interleaver's receiving side.
    pub back: Back,
}

// The sub-channel comes back where the settings are refused, too: so it stands beside the answer, and not in it.
/// The result of telling a sub-channel its settings.
#[derive(Clone, Copy)]
pub struct Telling {
    pub answer: Result<(), Refusal>,
    pub sub: Sub,
}

/// The result of a call.
#[derive(Clone, Copy)]
pub struct Hearing {
    pub answer: Answer,
    /// Bytes of the piece taken.
    pub taken: usize,
    pub sub: Sub,
}

impl Sub {
    /// Bytes that the receive buffer needs.
    pub const RAW: usize = Receiver::RAW;

    /// Bytes of a word, and those that the word buffer needs.
    pub const WORD: usize = Receiver::WORD;

    /// Bytes of a group's words.
    pub const GROUP: usize = Group::BYTES;

    // With settings: hunting, waiting for a flag, the first marked block at row zero.
    fn with(settings: Settings) -> Self
        ensures { result ≡ fresh_sub settings }
    {
        Sub {
            lane: Lane {
                settings,
                locked: false,
                lost: false,
                hunting: Hunting::fresh(),
                counts: Counts::zero(),
                frame: FrameReader::fresh(),
            },
            back: interleaver::fresh_back(),
        }
    }

    /// A sub-channel that is not told its settings.
    pub fn untold() -> Self
        ensures { result ≡ untold }
    {
        Sub::with(Settings {
            told: false,
            parity: 0,
            depth: 0,
        })
    }

    // Settings refused.
    fn refused(refusal: Refusal) -> Telling
        ensures { result ≡ record { answer = Err refusal; sub = untold } }
    {
        Telling {
            answer: Err(refusal),
            sub: Sub::untold(),
        }
    }

    /// A sub-channel that is just told its settings; where they are refused, one that is not told.
    pub fn told(parity: usize, depth: usize) -> Telling
        ensures { as_telling result ≡ telling parity depth }
    {
        if Settings::PARITY < parity {
            return Sub::refused(Refusal::Roots);
        }
        if Settings::DEPTH < depth {
            return Sub::refused(Refusal::Depth);
        }
        Telling {
            answer: Ok(()),
            sub: Sub::with(Settings {
                told: true,
                parity,
                depth,
            }),
        }
    }

    /// Whether no count is beyond its limit, nor a setting, nor the place among the cells.
    pub fn sound(self) -> bool
        ensures { result ≡ sound self }
    {
        self.lane.sound()
            && !interleaver::is_beyond(self.lane.settings.depth, self.back.matrix.place)
    }

    // The bytes of a piece up to the first answer: those that only fill a word in one go, and then the next by itself.
    fn hear_bytes(self, word: &mut [u8], piece: &[u8]) -> Hearing
        requires { Fine (memory self spare word.old) × (owes self.lane ≡ 0) }
        ensures { BytesIs self word.old piece.now result word.new }
    {
        let mut lane = self.lane;
        let mut back = self.back;
        let mut taken: usize = 0;
        // The place goes on by a whole run and one byte, so that no `for` counts it.
        while taken < piece.len() {
            let n = fill::plain(lane, &back, piece.len() - taken - 1);
            fill::fill(lane, &mut back, word, piece, taken, n);
            let full = fill::filled(lane, n);
            let last = taken + n;
            let step = full.eat(&mut back, word, piece[last]);
            lane = step.lane;
            taken = last + 1;
            if let Some(answer) = step.answer {
                return Hearing {
                    answer,
                    taken,
                    sub: Sub { lane, back },
                };
            }
        }
        Hearing {
            answer: Answer::More,
            taken,
            sub: Sub { lane, back },
        }
    }

    // A call behind refusals 10 and 11: a stored word's rest, then new bytes.
    pub(crate) fn hear_on(self, recv: &mut [u8], word: &mut [u8], piece: &[u8]) -> Hearing
        requires { (sound self ≡ true) × (roomy recv.old word.old ≡ true) }
        ensures { HearingIs (hear_on (memory self recv.old word.old) piece.now)
            result recv.new word.new }
    {
        let handed = self.lane.hand_on(recv, word);
        if let Some(answer) = handed.answer {
            return Hearing {
                answer,
                taken: 0,
                sub: Sub {
                    lane: handed.lane,
                    ..self
                },
            };
        }
        let settled = Sub {
            lane: handed.lane,
            ..self
        };
        settled.hear_bytes(word, piece)
    }

    // A refused call: the state as it was, and no byte taken.
    fn unheard(self, refusal: Refusal) -> Hearing
        ensures { result ≡ record { answer = Answer.Said (Judged.Refused (number refusal)); taken = 0; sub = self } }
    {
        Hearing {
            answer: Answer::Said(Judged::Refused(refusal as u8)),
            taken: 0,
            sub: self,
        }
    }

    /// One call: at most one answer, and no byte behind the one that caused it is taken.
    pub fn hear(self, recv: &mut [u8], word: &mut [u8], piece: &[u8]) -> Hearing
        ensures { HearingIs (hear_call (memory self recv.old word.old) piece.now)
            result recv.new word.new }
    {
        if !self.sound() {
            return self.unheard(Refusal::State);
        }
        if !Receiver::has_room(recv, word) {
            return self.unheard(Refusal::Buffer);
        }
        self.hear_on(recv, word, piece)
    }
}
