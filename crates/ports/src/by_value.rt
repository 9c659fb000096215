//! A table of ports by value.
ghost use Rattle.std.specs.Prelude.{◌≡◌, List};
ghost use Rattle.ports_spec.specs.Forgot.{Forgot, as_forgot};
ghost use Rattle.ports_spec.specs.Ports.{noting, forgetting};
ghost use Rattle.ports_spec.specs.declared.Entry.{Entry};
ghost use Rattle.ports.specs.ByValue.{fresh_ports, noted_in, sound_ports};

use crate::places::is_unfit;
use crate::{Entry, Noted};
use base::Refusal;

/// A table of 16 places, by value.
#[derive(Clone, Copy)]
pub struct Ports {
    pub entries: [Entry; 16],
}

/// What is noted, and the table then.
// This and the next are no one generic struct: the name of the field says what the call did, where a generic one would say only that it answered.
#[derive(Clone, Copy)]
pub struct NotedIn {
    pub noted: Noted,
    pub ports: Ports,
}

/// What is forgotten, and the table then.
#[derive(Clone, Copy)]
pub struct ForgotIn {
    pub forgot: Result<(), Refusal>,
    pub ports: Ports,
}

impl Ports {
    /// How many places.
    pub const PLACES: usize = 16;

    /// A table that holds no port.
    pub fn fresh() -> Ports
        ensures { result ≡ fresh_ports }
    {
        let free = Entry {
            held: false,
            port: 0,
            last: 0,
        };
        Ports {
            entries: [free; 16],
        }
    }

    /// Whether no port is held twice.
    pub fn sound(self) -> bool
        ensures { result ≡ sound_ports self }
    {
        !is_unfit(&self.entries)
    }

    /// A delivered packet, as `note`.
    pub fn note(self, port: u16, sequence: u16) -> NotedIn
        ensures { result ≡ noted_in (noting self.entries port sequence) }
    {
        let mut ports = self;
        let noted = crate::note(&mut ports.entries, port, sequence);
        NotedIn { noted, ports }
    }

    /// A port forgotten, as `forget`.
    pub fn forget(self, port: u16) -> ForgotIn
        ensures { ◌≡◌ {A = Forgot × List Entry} (as_forgot result.forgot, result.ports.entries) (forgetting self.entries port) }
    {
        let mut ports = self;
        let forgot = crate::forget(&mut ports.entries, port);
        ForgotIn { forgot, ports }
    }
}
