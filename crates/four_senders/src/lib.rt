//! One to four fixed sub-channels: the sender.
#![tactic(auto)]

ghost use Rattle.std.specs.Prelude.{◌≡◌};
ghost use Rattle.base.specs.Choice.{pick};
ghost use Rattle.base.specs.Written.{as_written, outcome};
ghost use Rattle.subchannel_spec.specs.Settings.{settings};
ghost use Rattle.four_senders.specs.Call.{fresh_sender, get, put, sound_four, known, configuring, as_configuring, send_four};

use base::{Refusal, Written};
use subchannel_spec::Settings;

// Four fields and no array: the definitions and laws of specs/ and of the crates above name the four.
/// What the four sub-channels are told.
#[derive(Clone, Copy)]
pub struct Sender {
    pub a: Settings,
    pub b: Settings,
    pub c: Settings,
    pub d: Settings,
}

// The sender comes back of a refused call, too: so it stands beside the answer, and not in it.
/// The result of configuring.
#[derive(Clone, Copy)]
pub struct Configuring {
    pub answer: Result<(), Refusal>,
    pub sender: Sender,
}

impl Sender {
    /// No sub-channel is configured.
    pub fn fresh() -> Self
        ensures { result ≡ fresh_sender }
    {
        let untold = Settings {
            told: false,
            parity: 0,
            depth: 0,
        };
        Sender {
            a: untold,
            b: untold,
            c: untold,
            d: untold,
        }
    }

    /// Whether all four are settings that configuring takes.
    pub fn sound(self) -> bool
        ensures { result ≡ sound_four self }
    {
        self.a.within() && self.b.within() && self.c.within() && self.d.within()
    }

    // four_receivers has a `put` and a `get` of this shape: shared, they would be one more public type below both, with two public functions, and
    // each definition would be one field deeper.
    // One of the four exchanged.
    fn put(self, number: usize, told: Settings) -> Self
        ensures { result ≡ put self number told }
    {
        match number {
            0 => Sender { a: told, ..self },
            1 => Sender { b: told, ..self },
            2 => Sender { c: told, ..self },
            _ => Sender { d: told, ..self },
        }
    }

    // A refused configuring: the settings as they were.
    fn unconfigured(self, refusal: Refusal) -> Configuring
        ensures { result ≡ record { answer = Err refusal; sender = self } }
    {
        Configuring {
            answer: Err(refusal),
            sender: self,
        }
    }

    /// Tells a sub-channel its settings, also again.
    pub fn configure(self, number: usize, parity: usize, depth: usize) -> Configuring
        ensures { as_configuring result ≡ configuring self number parity depth }
    {
        if !self.sound() {
            return self.unconfigured(Refusal::State);
        }
        if 3 < number {
            return self.unconfigured(Refusal::SubChannel);
        }
        if Settings::PARITY < parity {
            return self.unconfigured(Refusal::Roots);
        }
        if Settings::DEPTH < depth {
            return self.unconfigured(Refusal::Depth);
        }
        let settings = Settings {
            told: true,
            parity,
            depth,
        };
        Configuring {
            answer: Ok(()),
            sender: self.put(number, settings),
        }
    }

    // One of the four; 3 stands for every number above 2.
    fn get(self, number: usize) -> Settings
        ensures { result ≡ get self number }
    {
        match number {
            0 => self.a,
            1 => self.b,
            2 => self.c,
            _ => self.d,
        }
    }

    // The settings of a sub-channel that is configured.
    fn told(self, number: usize) -> Option<Settings>
        ensures { result ≡ pick (known self number) (Some (get self number)) None }
    {
        let settings = self.get(number);
        if number <= 3 && settings.told {
            return Some(settings);
        }
        None
    }

    /// Sends a whole stream on a sub-channel.
    pub fn send(self, number: usize, stream: &[u8], out: &mut [u8]) -> Written
        ensures { outcome (as_written result) out.new ≡ send_four self number stream.now out.old }
    {
        if !self.sound() {
            return Err(Refusal::State);
        }
        let Some(settings) = self.told(number) else {
            return Err(Refusal::SubChannel);
        };
        subchannel_sender::send(settings.parity, settings.depth, stream, out)
    }
}
