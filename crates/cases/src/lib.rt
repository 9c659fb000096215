//! What the comparison programs share: a case read, its numbers, numbers told, what is handed in cut into pieces. The programs answer cases from
//! standard input, one after the other, so that tests/ can hold the code to the second program. No contract can say what is read or written:
//! what is told is compared, and only programs stand on this crate.
//!
//! A case: what is asked (a letter), a number (8 bytes), how many bytes are lent as output and how many follow (2 bytes each), and those that
//! follow. An answer: what is told, in numbers (8 bytes each), and all bytes of the output. Numbers stand low byte first; the output is lent
//! filled with 0xA5; a refusal n is told as 65,536 + n.
#![tactic(auto)]

mod cut;

use base::{Refusal, Written};
pub use cut::Cut;
use std::io;
use std::io::{BufReader, BufWriter, ErrorKind, Read, Write};
use std::rt::{Stdin, Stdout};

/// A case: what is asked, its number, how many bytes are lent as output, and the bytes that follow its head.
#[derive(Clone, Copy)]
pub struct Case<'a> {
    pub asked: u8,
    pub number: u64,
    pub room: usize,
    pub given: &'a [u8],
}

/// Who answers cases.
pub trait Answer {
    /// Writes what is told of a case, and its output to what it is lent.
    fn answer(&mut self, told: &mut impl Write, case: Case, out: &mut [u8]) -> io::Result<()>;
}

/// Reads a case, its bytes into `space`; none at the end of the input, or where there is no room for them.
pub fn read<'a>(input: &mut impl Read, space: &'a mut [u8]) -> io::Result<Option<Case<'a>>> {
    let mut head = [0u8; 13];
    if !read_full(input, &mut head)? {
        return Ok(None);
    }
    let n = pair_at(&head, 11);
    if space.len() < n {
        return Ok(None);
    }
    let given = &mut space[..n];
    if !read_full(input, given)? {
        return Ok(None);
    }
    Ok(Some(Case {
        asked: head[0],
        number: number_at(&head, 1),
        room: pair_at(&head, 9),
        given,
    }))
}

/// Who reads cases and answers them.
pub trait Serve {
    /// Reads a case and writes its answer: whether there was one.
    fn serve(&mut self, input: &mut impl Read, told: &mut impl Write) -> io::Result<bool>;
}

/// Has all cases of standard input read and answered.
pub fn serve_all(rt: &HostRuntime, server: &mut impl Serve) -> io::Result<()> {
    let mut input = BufReader::new(rt.alloc(), rt.stdin())?;
    let mut told = BufWriter::new(rt.alloc(), rt.stdout())?;
    for _ in 0..u64::MAX {
        if !server.serve(&mut input, &mut told)? {
            break;
        }
    }
    told.flush()
}

// Who answers cases, and the memory of a case's bytes and of its output.
#[derive(Drop)]
struct Server<'a, A> {
    answers: &'a mut A,
    space: [u8; 65536],
    out: [u8; 65536],
}

impl<A: Answer> Serve for Server<'_, A> {
    // What is told of a case, and behind it the output that it was lent.
    fn serve(&mut self, input: &mut impl Read, told: &mut impl Write) -> io::Result<bool> {
        let Some(case) = read(input, &mut self.space)? else {
            return Ok(false);
        };
        let lent = lend(case.room, &mut self.out);
        self.answers.answer(told, case, lent)?;
        told.write_all(lent)?;
        Ok(true)
    }
}

/// Answers all cases of standard input: what is told of one, and behind it the output that it was lent.
pub fn answer_all(rt: &HostRuntime, answers: &mut impl Answer) -> io::Result<()> {
    let mut server = Server {
        answers,
        space: [0; 65536],
        out: [0; 65536],
    };
    serve_all(rt, &mut server)
}

/// Reads until the buffer is full or the input ends: whether it is full. What was read stands at its start.
pub fn read_full(input: &mut impl Read, bytes: &mut [u8]) -> io::Result<bool> {
    match input.read_exact(bytes) {
        Ok(()) => Ok(true),
        Err(e) if e.kind() == ErrorKind::UnexpectedEof => Ok(false),
        Err(e) => Err(e),
    }
}

// The first `room` bytes of an output, filled.
fn lend(room: usize, out: &mut [u8]) -> &mut [u8] {
    let n = room.min(out.len());
    let lent = &mut out[..n];
    lent.fill(0xA5);
    lent
}

/// The number in two bytes from a place on; 0 where they are not there.
// Numbers: they are what is compared.
pub fn pair_at(bytes: &[u8], at: usize) -> usize {
    if bytes.len() < 2 || bytes.len() - 2 < at {
        return 0;
    }
    usize::from(u16::from_le_bytes([bytes[at], bytes[at + 1]]))
}

/// The number in eight bytes from a place on; what is not there counts as 0.
pub fn number_at(bytes: &[u8], at: usize) -> u64 {
    let mut b = [0u8; 8];
    if at < bytes.len() {
        base::copy(&bytes[at..], &mut b);
    }
    u64::from_le_bytes(b)
}

/// The low 16 bits of a number.
pub fn half(n: u64) -> u16 {
    (n % 65536) as u16
}

/// The numbers of 16 bits in a number, the first one lowest.
pub fn first(n: u64) -> usize {
    usize::from(half(n))
}

pub fn second(n: u64) -> usize {
    first(n >> 16)
}

pub fn third(n: u64) -> usize {
    first(n >> 32)
}

/// The low byte of a number.
pub fn low(n: u64) -> u8 {
    (n % 256) as u8
}

/// Writes a number, its low byte first.
pub fn print(told: &mut impl Write, n: u64) -> io::Result<()> {
    told.write_all(&n.to_le_bytes())
}

/// Writes numbers, one behind the other.
pub fn print_all(told: &mut impl Write, numbers: &[u64]) -> io::Result<()> {
    for n in numbers {
        print(told, *n)?;
    }
    Ok(())
}

/// Writes the first n bytes, how many first; nothing more where they are not there.
pub fn show(told: &mut impl Write, n: usize, bytes: &[u8]) -> io::Result<()> {
    print(told, n as u64)?;
    match bytes.get(..n) {
        Some(first) => told.write_all(first),
        None => Ok(()),
    }
}

/// What a call that writes answered, as a number.
pub fn written(w: Written) -> u64 {
    answered(w.map(|n| n as u64))
}

/// What any call answered, as a number.
pub fn answered(answer: Result<u64, Refusal>) -> u64 {
    match answer {
        Ok(n) => n,
        Err(refusal) => refused(refusal as u8),
    }
}

/// A refusal's number, told; not a `Refusal`, since states that callers hand in hold theirs as a number (`Judged::Refused` (crates/packet)).
pub fn refused(n: u8) -> u64 {
    65536 + u64::from(n)
}
