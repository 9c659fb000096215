//! Answers cases, each a stream or a recording (b), read out by calls (reading.rt). crates/cases has the form of a case and of an answer.
#![tactic(auto)]

mod reading;

use cases::{Answer, Case};
use std::io;
use std::io::Write;

#[derive(Drop)]
struct Boards;

fn main(rt: HostRuntime) -> io::Result<()> {
    cases::answer_all(&rt, &mut Boards)
}

impl Answer for Boards {
    // The letter is not looked at: every case is for the board.
    fn answer(&mut self, told: &mut impl Write, case: Case, out: &mut [u8]) -> io::Result<()> {
        reading::read_out(told, case.number, case.given, out)
    }
}
