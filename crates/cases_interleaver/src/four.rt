//! The cases of the sender of four. Its settings stand before a case's other bytes, of each sub-channel three numbers of 16 bits: told, R, depth.
ghost use Rattle.std.specs.Prelude.{◌<◌};

use base::Written;
use four_senders::Sender;
use std::io;
use std::io::Write;
use subchannel_spec::Settings;

const SETTINGS: usize = 24;

// Tells the settings behind it, in three numbers each.
pub fn configure(told: &mut impl Write, number: u64, bytes: &[u8]) -> io::Result<u64> {
    let sender = sender_in(bytes);
    let done = sender.configure(
        cases::first(number),
        cases::second(number),
        cases::third(number),
    );
    let next = done.sender;
    for settings in [next.a, next.b, next.c, next.d] {
        print(told, settings)?;
    }
    Ok(cases::answered(done.answer.map(|()| 0)))
}

pub fn send(number: u64, bytes: &[u8], out: &mut [u8]) -> Written {
    if bytes.len() < SETTINGS {
        return Ok(0);
    }
    let sender = sender_in(bytes);
    sender.send(cases::first(number), &bytes[SETTINGS..], out)
}

fn sender_in(bytes: &[u8]) -> Sender {
    Sender {
        a: settings(bytes, 0),
        b: settings(bytes, 6),
        c: settings(bytes, 12),
        d: settings(bytes, 18),
    }
}

// Those from a place on.
fn settings(bytes: &[u8], at: usize) -> Settings
    requires { at < 24 }
{
    Settings {
        told: cases::pair_at(bytes, at) == 1,
        parity: cases::pair_at(bytes, at + 2),
        depth: cases::pair_at(bytes, at + 4),
    }
}

fn print(told: &mut impl Write, settings: Settings) -> io::Result<()> {
    cases::print_all(
        told,
        &[
            u64::from(settings.told),
            settings.parity as u64,
            settings.depth as u64,
        ],
    )
}
