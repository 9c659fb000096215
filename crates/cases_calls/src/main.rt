//! Answers cases, each a single call; crates/cases_stream has those that ask for many, and crates/cases_interleaver those of the interleaver.
//! crates/cases has the form of a case and of an answer; what is told is a number (two of a closed frame).
#![tactic(auto)]

use cases::{Answer, Case};
use fcs::Register;
use packet::{Class, Judged};
use parity::Checked;
use repair::Mended;
use std::io;
use std::io::Write;

#[derive(Drop)]
struct Calls;

fn main(rt: HostRuntime) -> io::Result<()> {
    cases::answer_all(&rt, &mut Calls)
}

impl Answer for Calls {
    fn answer(&mut self, told: &mut impl Write, case: Case, out: &mut [u8]) -> io::Result<()> {
        let number = tell(told, case.asked, case.number, case.given, out)?;
        cases::print(told, number)
    }
}

fn tell(
    told: &mut impl Write,
    asked: u8,
    number: u64,
    bytes: &[u8],
    out: &mut [u8],
) -> io::Result<u64> {
    match asked {
        b'Q' => closed(told, number as usize, bytes, out),
        _ => Ok(tell_one(asked, number, bytes, out)),
    }
}

// What is told in one number.
fn tell_one(asked: u8, number: u64, bytes: &[u8], out: &mut [u8]) -> u64 {
    match asked {
        b'F' => u64::from(fcs::fcs(bytes)),
        b'G' => {
            let register = Register {
                bits: cases::half(number),
            };
            u64::from(register.feed(bytes).bits)
        }
        b'T' => u64::from(field::times(cases::low(number / 256), cases::low(number))),
        b'E' => u64::from(field::power(number as usize)),
        b'P' => cases::written(parity::make(number as usize, bytes, out)),
        b'W' => cases::answered(parity::check(number as usize, bytes).map(checked)),
        b'Y' => repaired(number as usize, bytes, out),
        b'C' => class(packet::class_of(cases::half(number))),
        b'K' => cases::written(packet::write(
            cases::half(number),
            cases::half(number / 0x10000),
            bytes,
            out,
        )),
        b'B' => cases::written(stream::begin(out)),
        b'A' => appended(number, bytes, out),
        b'M' => cases::written(channel_sender::mark(bytes, out)),
        b'R' => cases::written(channel_sender::send(bytes, out)),
        _ => tell_keyed(asked, number, bytes, out),
    }
}

// Packets of either format, and the parts of one that are handed out.
fn tell_keyed(asked: u8, number: u64, bytes: &[u8], out: &mut [u8]) -> u64 {
    match asked {
        b'k' => keyed(number, bytes, out),
        b'a' => keyed_at(number, bytes, out),
        b'D' => part(stream::payload(bytes, cases_frames::delivery(number)), out),
        b'H' => part(stream::key(bytes, cases_frames::delivery(number)), out),
        _ => 0,
    }
}

// The parts of a packet, but for port and sequence, which are the number's: the bytes begin with format, key number and, in 16 bits, the
// key's length, and key and payload follow.
#[derive(Clone, Copy)]
struct Parts<'a> {
    format: u8,
    number: u8,
    key: &'a [u8],
    payload: &'a [u8],
}

// None where the bytes are too few.
fn parts_in(bytes: &[u8]) -> Option<Parts<'_>> {
    let (head, behind) = bytes.split_first_chunk::<4>()?;
    let (key, payload) = behind.split_at_checked(cases::pair_at(head, 2))?;
    Some(Parts {
        format: head[0],
        number: head[1],
        key,
        payload,
    })
}

// A packet written.
fn keyed(number: u64, bytes: &[u8], out: &mut [u8]) -> u64 {
    let Some(p) = parts_in(bytes) else {
        return 0;
    };
    cases::written(packet::write_as(
        p.format,
        p.number,
        p.key,
        cases::half(number),
        cases::half(number / 0x10000),
        p.payload,
        out,
    ))
}

// The same appended, at the place that the number has above port and sequence.
fn keyed_at(number: u64, bytes: &[u8], out: &mut [u8]) -> u64 {
    let Some(p) = parts_in(bytes) else {
        return 0;
    };
    cases::written(stream::append_as(
        out,
        (number / 0x100000000) as usize,
        p.format,
        p.number,
        p.key,
        cases::half(number),
        cases::half(number / 0x10000),
        p.payload,
    ))
}

// The length of a part, which is copied to the output.
fn part(bytes: &[u8], out: &mut [u8]) -> u64 {
    base::copy(bytes, out);
    bytes.len() as u64
}

// A packet appended: port, sequence, and the place in 32 bits.
fn appended(number: u64, bytes: &[u8], out: &mut [u8]) -> u64 {
    let at = (number / 0x100000000) as usize;
    cases::written(stream::append(
        out,
        at,
        cases::half(number),
        cases::half(number / 0x10000),
        bytes,
    ))
}

// A closed frame, of raw bytes that the output holds from its start: what it is judged to be, and its format and key.
fn closed(told: &mut impl Write, raw: usize, bytes: &[u8], out: &mut [u8]) -> io::Result<u64> {
    base::copy(bytes, out);
    let j = packet::judge(out, raw);
    cases::print(told, cases_frames::judged(j))?;
    Ok(match j {
        Judged::Packet(d) => cases_frames::kind(d),
        Judged::Refused(_) | Judged::Broken(_) => 0,
    })
}

// By name, as what is checked below: `as` would tell the place of a variant in another crate's enum.
fn class(c: Class) -> u64 {
    match c {
        Class::System => 0,
        Class::Applications => 1,
        Class::M => 2,
        Class::D => 3,
        Class::Future => 4,
        Class::Barred => 5,
    }
}

fn checked(c: Checked) -> u64 {
    match c {
        Checked::Clean => 0,
        Checked::Damaged => 1,
    }
}

// A word that the output holds, repaired there: 0 where it is clean, the places changed, or 256 where it is beyond repair.
// Numbers: they are what is compared.
fn repaired(r: usize, bytes: &[u8], out: &mut [u8]) -> u64 {
    base::copy(bytes, out);
    cases::answered(repair::repair(r, out).map(mended))
}

fn mended(m: Mended) -> u64 {
    match m {
        Mended::Clean => 0,
        Mended::Repaired(n) => n as u64,
        Mended::Beyond => 256,
    }
}
