//! Answers cases, each a capture (r), read in pieces (reading.rt), or a single call: a header (f) or a record (e) written, a packet's bytes fetched
//! (d). crates/cases has the form of a case and of an answer.
#![tactic(auto)]

mod reading;

use cases::{Answer, Case};
use std::io;
use std::io::Write;

#[derive(Drop)]
struct Captures;

fn main(rt: HostRuntime) -> io::Result<()> {
    cases::answer_all(&rt, &mut Captures)
}

impl Answer for Captures {
    fn answer(&mut self, told: &mut impl Write, case: Case, out: &mut [u8]) -> io::Result<()> {
        match case.asked {
            b'r' => reading::read(told, case.number, case.given, out),
            b'd' => fetch(told, case.number, case.given, out),
            b'f' => cases::print(told, cases::written(capture::begin(out))),
            _ => {
                let written = capture::enter(low(case.number), case.given, out);
                cases::print(told, cases::written(written))
            }
        }
    }
}

// The number of a record.
fn low(number: u64) -> u32 {
    (number % 0x100000000) as u32
}

// A packet's bytes: how many, and they stand in the output.
fn fetch(told: &mut impl Write, number: u64, bytes: &[u8], out: &mut [u8]) -> io::Result<()> {
    let part = capture::packed(bytes, cases_frames::delivery(number));
    cases::print(told, part.len() as u64)?;
    base::copy(part, out);
    Ok(())
}
