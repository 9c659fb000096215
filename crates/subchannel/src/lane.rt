//! How far a sub-channel is: all of its state but the interleaver's cells.
ghost use Rattle.std.specs.Prelude.{◌≡◌, true, false, suc, ◌≤◌, ◌<◌, ltb, length};
ghost use Rattle.std.proofs.Math.Option.{some, none};
ghost use Rattle.interleaver_spec.specs.Running.{beyond};
ghost use Rattle.parity.specs.Calls.{root_limit};
ghost use Rattle.channel_spec.specs.Sender.{word_bytes};
ghost use Rattle.channel_spec.specs.Meaning.{shift, is_marker};
ghost use Rattle.channel.specs.Call.{roomy};
ghost use Rattle.subchannel_spec.specs.Sender.{message_bytes, group_bytes};
ghost use Rattle.subchannel.specs.Call.{
  counts,
  moved,
  hunt_on,
  group_on,
  compare_on,
  mark_on,
  grouped,
  eat,
  owes,
  handing,
  sound_lane,
};
ghost use Rattle.subchannel.specs.Private.{step_of, Able, WordIs, EatenIs, HandedIs};

use crate::counts::Counts;
use crate::sub::Sub;
use crate::{cells, word};
use channel::{Answer, Hunting};
use interleaver::Back;
use stream::FrameReader;
use subchannel_spec::Settings;

// Two flags and no enum: callers hand a state in, and the laws speak of all its values, unsound ones among them.
/// The state but for the cells.
#[derive(Clone, Copy)]
pub struct Lane {
    pub settings: Settings,
    pub locked: bool,
    /// Lock is lost: nothing more is given.
    pub lost: bool,
    pub hunting: Hunting,
    pub counts: Counts,
    pub frame: FrameReader,
}

// What a step gives: all but the cells and the word.
#[derive(Clone, Copy)]
pub(crate) struct Step {
    // The answer, if it ends the call.
    pub answer: Option<Answer>,
    pub lane: Lane,
}

impl Lane {
    // Whether no count is beyond its limit, nor a setting.
    pub(crate) fn sound(self) -> bool
        ensures { result ≡ sound_lane self }
    {
        self.frame.sound() && self.settings.within() && self.counts.sound(self.settings.parity)
    }

    // With other last four bytes, and counts.
    fn moved(self, hunting: Hunting, counts: Counts) -> Self
        ensures { result ≡ moved self hunting counts }
    {
        Lane {
            hunting,
            counts,
            ..self
        }
    }

    // The call goes on with other last four bytes, and counts.
    fn on(self, hunting: Hunting, counts: Counts) -> Step
        ensures { result ≡ step_of (none, moved self hunting counts) }
    {
        Step {
            answer: None,
            lane: self.moved(hunting, counts),
        }
    }

    // A byte while hunting.
    fn hunt_byte(self, b: u8) -> Step
        ensures { result ≡ step_of (none, hunt_on (is_marker (shift self.hunting b)) (shift self.hunting b) self) }
    {
        let hunting = self.hunting.shift(b);
        if hunting.at_marker() {
            return Step {
                answer: None,
                lane: Lane {
                    locked: true,
                    lost: false,
                    hunting,
                    counts: Counts::zero(),
                    ..self
                },
            };
        }
        self.on(hunting, self.counts)
    }

    // Lock lost: any open packet is dropped.
    fn lost_at(self, hunting: Hunting) -> Self
        ensures { result ≡ (compare_on false hunting self).1 }
    {
        Lane {
            locked: false,
            lost: true,
            hunting,
            counts: Counts::zero(),
            frame: FrameReader::fresh(),
            ..self
        }
    }

    // A byte behind a group.
    fn mark_byte(self, b: u8) -> Step
        requires { self.counts.marker ≤ 3 }
        ensures { result ≡ step_of (mark_on (ltb (suc self.counts.marker) 4) (shift self.hunting b) self) }
    {
        let counts = self.counts;
        let hunting = self.hunting.shift(b);
        let marker = counts.marker + 1;
        if marker < 4 {
            return self.on(hunting, Counts { marker, ..counts });
        }
        if hunting.at_marker() {
            return self.on(
                hunting,
                Counts {
                    group: 0,
                    marker: 0,
                    ..counts
                },
            );
        }
        Step {
            answer: Some(Answer::LockLost),
            lane: self.lost_at(hunting),
        }
    }

    // A byte of a word, with the counts behind it in the group: stored behind those before it. The whole word gives the block's answer.
    fn word_byte(self, behind: Counts, word: &mut [u8], y: u8) -> Step
        requires { (word_bytes ≤ length word.old) × (behind ≡ counts (suc self.counts.group) self.counts.marker self.counts.word self.counts.handed) }
        ensures { WordIs (group_on (some y) self word.old) result word.new }
    {
        let at = word::place_in(behind.word);
        word[at] = y;
        let stored = Counts {
            word: at + 1,
            handed: 0,
            ..behind
        };
        let lane = self.moved(self.hunting, stored);
        if at + 1 < Sub::WORD {
            return Step { answer: None, lane };
        }
        let condition = word::mend_in(self.settings.parity, word);
        Step {
            answer: Some(Answer::Block(condition)),
            lane,
        }
    }

    // That the lent cells and word buffer fit is asked here and by `eat`: of a struct that holds them each would have to say that they are the same still.
    // A byte of a group: through the interleaver, and then one of a word, if it brings one.
    fn group_byte(self, back: &mut Back, word: &mut [u8], b: u8) -> Step
        requires { Able self word.old × (self.counts.group < group_bytes) × (beyond self.settings.depth back.old.matrix.place ≡ false) }
        ensures { EatenIs (grouped self back.old word.old b) result back.new word.new }
    {
        let behind = Counts {
            group: self.counts.group + 1,
            ..self.counts
        };
        match cells::turn(back, self.settings.depth, b) {
            Some(y) => self.word_byte(behind, word, y),
            None => self.on(self.hunting, behind),
        }
    }

    // One new byte.
    pub(crate) fn eat(self, back: &mut Back, word: &mut [u8], b: u8) -> Step
        requires { Able self word.old × (beyond self.settings.depth back.old.matrix.place ≡ false) }
        ensures { EatenIs (eat self back.old word.old b) result back.new word.new }
    {
        if self.lost {
            return Step {
                answer: None,
                lane: self,
            };
        }
        if !self.locked {
            return self.hunt_byte(b);
        }
        if self.counts.group < Sub::GROUP {
            return self.group_byte(back, word, b);
        }
        self.mark_byte(b)
    }

    // Message bytes of a stored word that are not handed on yet.
    fn owed(self) -> usize
        requires { (self.settings.parity ≤ root_limit) × (self.counts.handed ≤ message_bytes self.settings.parity) }
        ensures { result ≡ owes self }
    {
        if !self.lost && self.locked && self.counts.word == Sub::WORD {
            return Sub::WORD - self.settings.parity - self.counts.handed;
        }
        0
    }

    // So many message bytes handed on, and the frame reader behind them.
    fn handing(self, handed: usize, frame: FrameReader) -> Self
        ensures { result ≡ handing self handed frame }
    {
        Lane {
            counts: Counts {
                handed,
                ..self.counts
            },
            frame,
            ..self
        }
    }

    // The rest of a stored word goes on to the frame reader, up to the first answer.
    pub(crate) fn hand_on(self, recv: &mut [u8], word: &[u8]) -> Step
        requires { (sound_lane self ≡ true) × (roomy recv.old word.now ≡ true) }
        ensures { HandedIs self recv.old word.now result recv.new }
    {
        if self.owed() == 0 {
            return Step {
                answer: None,
                lane: self,
            };
        }
        let from = self.counts.handed;
        let to = Sub::WORD - self.settings.parity;
        let read = self.frame.read(recv, &word[from..to]);
        let lane = self.handing(from + read.taken, read.frame);
        match read.heard {
            None => Step { answer: None, lane },
            Some(judged) => Step {
                answer: Some(Answer::Said(judged)),
                lane,
            },
        }
    }
}
