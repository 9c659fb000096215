//! The board as a program, `board stream|recording [blocks] [FIRST LAST]`: on standard output what the manager reads of standard input, the bytes
//! of an opportunistic channel as they are, or a recording; with `blocks` clean and repaired blocks are told too; with two numbers, packets of the
//! ports from FIRST to LAST alone. Bytes are read as they come, and what they show is out before the next are read. Where something fails it says
//! so on standard error and stops; where the input is no whole recording, it says so behind the last line.
#![tactic(auto)]

ghost use Rattle.std.specs.Prelude.{◌≤◌, length, IfOk};
ghost use Rattle.console.specs.Next.{passed};

use board::{Readout, Wants};
use channel::Receiver;
use console::{Next, Speak, TakePieces, is_argument, say};
use ports_spec::Range;
use std::env::Env;
use std::io;
use std::process::ExitCode;

// A board, and the memory that its calls are lent.
#[derive(Drop)]
struct Board {
    readout: Readout,
    begin: Begin,
    recv: [u8; Receiver::RAW],
    word: [u8; Receiver::WORD],
    out: [u8; ROOM],
}

// Whether the first bytes may be worth a hint: those of a stream, until they are read.
#[derive(Clone, Copy)]
enum Begin {
    Unread,
    Read,
}

// Bytes that are read at once, fewer than other programs read.
const PIECE: usize = 4096;

// Bytes of text that a call may write.
const ROOM: usize = 8192;

fn main(rt: HostRuntime) -> ExitCode {
    console::status(run(&rt))
}

// What the arguments ask for.
fn run(rt: &(impl Env + Input + Print + Speak)) -> io::Result<()> {
    match asked(rt) {
        Some(fresh) => show(rt, fresh),
        None => {
            usage(rt);
            Ok(())
        }
    }
}

// The board that the arguments ask for, before the first byte.
fn asked(rt: &impl Env) -> Option<Readout> {
    let blocks = is_argument(rt, 2, b"blocks");
    let range = asked_range(rt, if blocks { 3 } else { 2 })?;
    if is_argument(rt, 1, b"stream") {
        return Some(Readout::fresh(true, blocks, range));
    }
    if is_argument(rt, 1, b"recording") {
        return Some(Readout::fresh(false, blocks, range));
    }
    None
}

// All ports, or those that two arguments from this place on name, the first and the last.
fn asked_range(rt: &impl Env, place: usize) -> Option<Range> {
    let behind = console::argument_count(rt).checked_sub(place)?;
    match behind {
        0 => Some(Range::all()),
        2 => console::named_range(rt, place).filter(|range| range.first <= range.last),
        _ => None,
    }
}

fn usage(rt: &impl Speak) {
    say(
        rt,
        b"usage: board stream|recording [blocks] [FIRST LAST] <IN\n",
    );
}

// Standard input, piece by piece as it comes.
fn show(rt: &(impl Input + Print + Speak), fresh: Readout) -> io::Result<()> {
    let mut board = Board {
        readout: fresh,
        begin: if fresh.bare {
            Begin::Unread
        } else {
            Begin::Read
        },
        recv: [0; Receiver::RAW],
        word: [0; Receiver::WORD],
        out: [0; ROOM],
    };
    let mut space = [0u8; PIECE];
    if console::each_piece_in(rt, b"board", &mut space, &mut board)? {
        board.finish(rt)?;
    }
    Ok(())
}

impl TakePieces for Board {
    // What bytes show is out before the next are read.
    fn take(&mut self, rt: &(impl Print + Speak), piece: &[u8]) -> io::Result<Next> {
        self.begin = self.begin.hint(rt, piece);
        self.call(rt, piece)
    }
}

impl Begin {
    // Where the first bytes of a stream are a recording's, that is said, once. They are read as told all the same.
    fn hint(self, rt: &impl Speak, piece: &[u8]) -> Self {
        match self {
            Begin::Unread => say_hint(rt, piece),
            Begin::Read => {}
        }
        Begin::Read
    }
}

fn say_hint(rt: &impl Speak, piece: &[u8]) {
    if piece.starts_with(b"\x4F\xF5\x5F") || piece.starts_with(b"\x50\xF5\x5F") {
        say(
            rt,
            b"board: hint: begins as a recording does: --recording?\n",
        );
    }
}

impl Board {
    // One call, and what it wrote: it stays within what it is lent.
    fn call(&mut self, rt: &(impl Print + Speak), piece: &[u8]) -> io::Result<Next>
        ensures { IfOk result (λ next. passed next ≤ length piece.now) }
    {
        let took = self
            .readout
            .take(&mut self.recv, &mut self.word, piece, &mut self.out);
        self.readout = took.next;
        print(rt, &self.out[..took.written])?;
        match took.wants {
            Ok(Wants::Again) => Ok(Next::Again(took.taken)),
            Ok(Wants::More) => self.go_on(rt),
            // No recording of less than 2^64 bytes comes to that, and no stream.
            Err(_) => {
                say(rt, b"board: the recording is too long\n");
                Ok(Next::Stop)
            }
        }
    }

    // Behind a piece. Behind a recording's wrong byte nothing more is shown.
    fn go_on(&self, rt: &(impl Print + Speak)) -> io::Result<Next>
        ensures { IfOk result (λ next. passed next ≤ 0) }
    {
        if !self.readout.tape.is_wrong() {
            return Ok(Next::More);
        }
        self.finish(rt)?;
        Ok(Next::Stop)
    }

    // What is still to be said behind the last byte: a line where the input is no whole recording, and else none.
    fn finish(&self, rt: &(impl Print + Speak)) -> io::Result<()> {
        let last = self.readout.finish();
        if last.length > 0 {
            print(rt, &last.bytes[..last.length.min(last.bytes.len())])?;
            say(rt, b"board: no whole recording\n");
        }
        Ok(())
    }
}

// Text to standard output.
fn print(rt: &(impl Print + Speak), text: &[u8]) -> io::Result<()> {
    console::print(rt, b"board", text)
}
