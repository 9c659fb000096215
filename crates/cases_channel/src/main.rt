//! Answers cases, each an opportunistic channel (O), heard in pieces (hearing.rt). crates/cases has the form of a case and of an answer.
#![tactic(auto)]

mod hearing;

use cases::{Answer, Case};
use std::io;
use std::io::Write;

#[derive(Drop)]
struct Channels;

fn main(rt: HostRuntime) -> io::Result<()> {
    cases::answer_all(&rt, &mut Channels)
}

impl Answer for Channels {
    // The letter is not looked at: every case is a channel.
    fn answer(&mut self, told: &mut impl Write, case: Case, out: &mut [u8]) -> io::Result<()> {
        hearing::hear(told, case.number, case.given, out)
    }
}
