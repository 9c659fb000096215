//! Answers cases, each a plain stream (S), read in pieces (reading.rt). crates/cases has the form of a case and of an answer.
#![tactic(auto)]

mod reading;

use cases::{Answer, Case};
use std::io;
use std::io::Write;

#[derive(Drop)]
struct Streams;

fn main(rt: HostRuntime) -> io::Result<()> {
    cases::answer_all(&rt, &mut Streams)
}

impl Answer for Streams {
    // The letter is not looked at: every case is a stream.
    fn answer(&mut self, told: &mut impl Write, case: Case, out: &mut [u8]) -> io::Result<()> {
        reading::read(told, case.number, case.given, out)
    }
}
