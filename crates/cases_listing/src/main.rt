//! Answers cases, each a recording (L), listed by calls (reading.rt). crates/cases has the form of a case and of an answer.
#![tactic(auto)]

mod reading;

use cases::{Answer, Case};
use std::io;
use std::io::Write;

#[derive(Drop)]
struct Listings;

fn main(rt: HostRuntime) -> io::Result<()> {
    cases::answer_all(&rt, &mut Listings)
}

impl Answer for Listings {
    // The letter is not looked at: every case is a recording.
    fn answer(&mut self, told: &mut impl Write, case: Case, out: &mut [u8]) -> io::Result<()> {
        reading::list(told, case.number, case.given, out)
    }
}
