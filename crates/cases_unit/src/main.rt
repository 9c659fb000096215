//! Answers cases of Layer 2 units. crates/cases has the form of a case and of an answer; the number is a unit's length in bits, and a number is told.
//! Asked for: U a unit written, of the bytes that follow: the delimiter, how many bytes are audio and how many opportunistic data (2 bytes each),
//! those, and the fixed data; u a unit read: the delimiter, the told lengths of audio and fixed data (8 bytes each), and the unit.
#![tactic(auto)]

use cases::{Answer, Case};
use std::io;
use std::io::Write;

#[derive(Drop)]
struct Units;

fn main(rt: HostRuntime) -> io::Result<()> {
    cases::answer_all(&rt, &mut Units)
}

impl Answer for Units {
    fn answer(&mut self, told: &mut impl Write, case: Case, out: &mut [u8]) -> io::Result<()> {
        let size = case.number as usize;
        cases::print(told, tell(case.asked, size, case.given, out))
    }
}

// 0 where nothing is asked that there is, or too few bytes follow.
fn tell(asked: u8, size: usize, bytes: &[u8], out: &mut [u8]) -> u64 {
    let answer = match asked {
        b'U' => write(size, bytes, out),
        b'u' => read(size, bytes, out),
        _ => None,
    };
    answer.unwrap_or(0)
}

// A unit written.
fn write(size: usize, bytes: &[u8], out: &mut [u8]) -> Option<u64> {
    let (delimiter, rest) = bytes.split_first_chunk::<5>()?;
    let (lengths, parts) = rest.split_first_chunk::<4>()?;
    let (audio, behind) = parts.split_at_checked(cases::pair_at(lengths, 0))?;
    let (opportunistic, fixed) = behind.split_at_checked(cases::pair_at(lengths, 2))?;
    let written = unit::write(size, *delimiter, audio, opportunistic, fixed, out);
    Some(cases::written(written))
}

// A unit read.
fn read(size: usize, bytes: &[u8], out: &mut [u8]) -> Option<u64> {
    let (delimiter, rest) = bytes.split_first_chunk::<5>()?;
    let (lengths, unit) = rest.split_first_chunk::<16>()?;
    let audio = cases::number_at(lengths, 0) as usize;
    let fixed = cases::number_at(lengths, 8) as usize;
    let written = unit::read(size, *delimiter, audio, fixed, unit, out);
    Some(cases::written(written))
}
