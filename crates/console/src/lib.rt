//! What programs share: how they read their arguments and, piece by piece, standard input, write standard output, and say on standard error what
//! they say: a text, a number, a refusal by its number and in words. No contract can speak of what is read or written, so this promises nothing of
//! it, and only programs stand on it; tests/ compares what is said. docs/REFUSALS.md has each number with its cause and what to do.
#![tactic(auto)]

ghost use Rattle.std.specs.Prelude.{◌≤◌, length};

use base::{Refusal, Written};
use ports_spec::Range;
use std::env::{Env, FillError};
use std::io;
use std::io::{Eprint, ErrorKind, Read};
use std::process::ExitCode;

/// Who says something on standard error, in bytes that need not be text.
pub trait Speak: Eprint {
    fn speak(&self, bytes: &[u8]);
}

impl Speak for HostRuntime {
    fn speak(&self, bytes: &[u8]) {
        let _ = self.stderr().write_all(bytes);
    }
}

/// What follows a call that took bytes of a piece.
#[derive(Clone, Copy)]
pub enum Next {
    /// Another call, with the piece behind so many bytes.
    Again(usize),
    /// The next piece.
    More,
    /// No call: no more is read.
    Stop,
}

/// Who takes standard input piece by piece, each in one call or more.
pub trait TakePieces {
    /// One call, with a piece or what is left of it.
    fn take(&mut self, rt: &(impl Print + Speak), piece: &[u8]) -> io::Result<Next>;
}

/// Bytes of an argument, at most: a longer one counts as empty.
pub const ARGUMENT: usize = 4096;

/// Bytes that are read at once.
pub const PIECE: usize = 65536;

/// How many arguments there are; the first is the program's name.
pub fn argument_count(rt: &impl Env) -> usize {
    (0..usize::MAX)
        .position(|place| !is_there(rt, place))
        .unwrap_or(usize::MAX)
}

// Whether there is such an argument.
fn is_there(rt: &impl Env, place: usize) -> bool {
    let mut space = [0u8; 1];
    !matches!(rt.arg(place, &mut space), Err(FillError::NotPresent))
}

/// The bytes of an argument, in a space that is lent; empty where there is none or it does not fit.
pub fn argument<'a>(rt: &impl Env, place: usize, space: &'a mut [u8]) -> &'a [u8]
    ensures { length result.now ≤ length space.old }
{
    let n = rt.arg(place, space).unwrap_or(0);
    &space[..n]
}

/// Whether an argument is this one.
pub fn is_argument(rt: &impl Env, place: usize, text: &[u8]) -> bool {
    let mut space = [0u8; ARGUMENT];
    argument(rt, place, &mut space) == text
}

/// The number that an argument says, in one to so many digits; the greatest of 64 bits where it says more.
pub fn number(rt: &impl Env, place: usize, digits: usize) -> Option<usize> {
    let mut space = [0u8; ARGUMENT];
    let text = argument(rt, place, &mut space);
    if text.is_empty() || text.len() > digits {
        return None;
    }
    text.iter().try_fold(0, |n, b| with_digit(n, *b))
}

// A digit behind a number.
fn with_digit(n: usize, b: u8) -> Option<usize> {
    let digit = char::from(b).to_digit(10)?;
    Some(n.saturating_mul(10).saturating_add(digit as usize))
}

/// The port that an argument names, in one to five digits.
pub fn port(rt: &impl Env, place: usize) -> Option<u16> {
    u16::try_from(number(rt, place, 5)?).ok()
}

/// The ports from one to another, each told by its low 16 bits.
pub fn range(first: usize, last: usize) -> Range {
    Range {
        first: low(first),
        last: low(last),
    }
}

fn low(n: usize) -> u16 {
    (n % 65536) as u16
}

/// The ports from the one that an argument names to that of the next argument.
pub fn named_range(rt: &impl Env, place: usize) -> Option<Range> {
    let first = port(rt, place)?;
    let last = port(rt, place.saturating_add(1))?;
    Some(range(usize::from(first), usize::from(last)))
}

/// Standard input, piece by piece as it comes, to one who takes it, while more is wanted: whether it ended. Where it cannot be read, that is said.
pub fn each_piece(
    rt: &(impl Input + Print + Speak),
    program: &[u8],
    taker: &mut impl TakePieces,
) -> io::Result<bool> {
    let mut space = [0u8; PIECE];
    each_piece_in(rt, program, &mut space, taker)
}

/// The same, of so many bytes at once as are lent.
pub fn each_piece_in(
    rt: &(impl Input + Print + Speak),
    program: &[u8],
    space: &mut [u8],
    taker: &mut impl TakePieces,
) -> io::Result<bool> {
    let mut input = rt.reader();
    for _ in 0..u64::MAX {
        let Ok(n) = input.read(space) else {
            say_unread(rt, program);
            return Ok(false);
        };
        if n == 0 {
            return Ok(true);
        }
        if !take_piece(rt, &space[..n], taker)? {
            return Ok(false);
        }
    }
    Ok(false)
}

// A piece, call by call: whether more is to be read.
fn take_piece(
    rt: &(impl Print + Speak),
    piece: &[u8],
    taker: &mut impl TakePieces,
) -> io::Result<bool> {
    let mut rest = piece;
    for _ in 0..u64::MAX {
        match taker.take(rt, rest)? {
            Next::Again(taken) => rest = &rest[onward(0, taken, rest.len())..],
            Next::More => return Ok(true),
            Next::Stop => return Ok(false),
        }
    }
    Ok(false)
}

/// The place n further on, or the end.
pub fn onward(at: usize, n: usize, end: usize) -> usize
    ensures { (result ≤ end) × (at ≤ end → at ≤ result) }
{
    at.min(end).saturating_add(n).min(end)
}

/// Bytes to standard output. Where not all of them go there, that is said, but nothing is where its reader has gone.
pub fn print(rt: &(impl Print + Speak), program: &[u8], bytes: &[u8]) -> io::Result<()> {
    tell_unwritten(rt, program, rt.write_all(bytes))
}

/// How writing to standard output ended. Where it failed, that is said, but nothing is where its reader has gone.
pub fn tell_unwritten(rt: &impl Speak, program: &[u8], ended: io::Result<()>) -> io::Result<()> {
    match ended {
        Ok(()) => Ok(()),
        Err(error) => {
            if error.kind() != ErrorKind::BrokenPipe {
                say(rt, program);
                say(rt, b": cannot write standard output\n");
            }
            Err(error)
        }
    }
}

/// What was written, to standard output; whether there is such, else it is said why not.
pub fn put(
    rt: &(impl Print + Speak),
    program: &[u8],
    written: Written,
    out: &[u8],
) -> io::Result<bool> {
    match written {
        Ok(n) => {
            print(rt, program, &out[..n.min(out.len())])?;
            Ok(true)
        }
        Err(refusal) => {
            say_refusal(rt, program, refusal as u8);
            Ok(false)
        }
    }
}

/// A record of a recording, to standard output: what says that it is one, how long it is, the low byte first, and the bytes. It holds 65,535, at most.
pub fn put_record(rt: &(impl Print + Speak), program: &[u8], bytes: &[u8]) -> io::Result<()> {
    let [low, high, ..] = bytes.len().to_le_bytes();
    print(rt, program, &[0xF5, 0x5F, low, high])?;
    print(rt, program, bytes)
}

// The status that a shell tells of a program that a pipe without a reader ended.
const GONE: u8 = 141;

/// The status of a program that ends so: 0 where all went well, and where it was said what did not.
pub fn status(ended: io::Result<()>) -> ExitCode {
    match ended {
        Err(error) if error.kind() == ErrorKind::BrokenPipe => ExitCode::from(GONE),
        _ => ExitCode::SUCCESS,
    }
}

/// Standard input could not be read.
pub fn say_unread(rt: &impl Speak, program: &[u8]) {
    say(rt, program);
    say(rt, b": cannot read standard input\n");
}

/// A recording is wrong, or ends early, at this byte.
pub fn say_wrong(rt: &impl Speak, program: &[u8], offset: u64) {
    say(rt, program);
    say(rt, b": no whole recording: X ");
    say_number(rt, offset);
    say(rt, b"\n");
}

/// A text.
pub fn say(rt: &impl Speak, text: &[u8]) {
    rt.speak(text);
}

/// A number.
pub fn say_number(rt: &impl Speak, number: u64) {
    let _ = rt.eprint(number);
}

/// `PROGRAM: refused N: WORDS`, a line. A number, since states that callers hand in hold theirs as such (`Judged::Refused` (crates/packet)).
pub fn say_refusal(rt: &impl Speak, program: &[u8], number: u8) {
    say(rt, program);
    say(rt, b": ");
    say_refused(rt, number);
}

/// `refused N: WORDS`, the end of its line.
pub fn say_refused(rt: &impl Speak, number: u8) {
    say(rt, b"refused ");
    say_number(rt, u64::from(number));
    say_why(rt, number);
}

/// `: WORDS`, the end of a line that has named the number.
pub fn say_why(rt: &impl Speak, number: u8) {
    say(rt, b": ");
    say(rt, words(number).as_bytes());
    say(rt, b"\n");
}

// A refusal in words; those of frames stand in no line here.
fn words(number: u8) -> &'static str {
    let Ok(refusal) = Refusal::try_from(number) else {
        return "docs/REFUSALS.md has the numbers";
    };
    match refusal {
        Refusal::State => "a count of the state is beyond its limit",
        Refusal::Buffer => "a buffer is too short",
        Refusal::Empty => "there is no text",
        Refusal::Long => "the text is above 8,192 bytes, } and ~ counted twice",
        Refusal::Barred => "ports 32000 to 32511 may not be used",
        Refusal::Output => "the output is too short",
        Refusal::SentKey => "no such format and key are sent",
        Refusal::Roots => "R is above 64",
        Refusal::Length => "no message or word has this length",
        Refusal::Depth => "the depth is above 64",
        Refusal::Full => "a seventeenth port",
        Refusal::Unheld => "no such port is held",
        Refusal::SubChannel => "no such sub-channel is configured",
        Refusal::Table => "the table of ports is too long, or holds one port twice",
        Refusal::Wide => "a number would pass 18,446,744,073,709,551,615",
        Refusal::Unit => "no unit has this length, or fewer bytes of it are there",
        Refusal::Mix => "no header sequence is for this mix of content",
        Refusal::Sequence => "the header matches no sequence",
        Refusal::Parts =>
            "the parts do not fit into the unit, or a length told does not fit its header",
        Refusal::Delimiter => "the delimiter is not found, or zeros before it would pass for it",
        Refusal::Capture => "the first 24 bytes are not those of a capture of ours",
        Refusal::Record => "the record is cut short, or its two lengths differ",
        Refusal::NoPacket => "the record is no packet that would be sent",
        Refusal::Raw
        | Refusal::Unfinished
        | Refusal::Escape
        | Refusal::Short
        | Refusal::Check
        | Refusal::Format
        | Refusal::Port
        | Refusal::Payload
        | Refusal::Key => "docs/REFUSALS.md has the numbers",
    }
}
