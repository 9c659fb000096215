//! Lists the recording on standard input, on standard output. Where one of them fails it says so on standard error and stops,
//! without a last line. Where the last line is `X`, it stands on standard error too. Behind a wrong byte it reads no more.
#![tactic(auto)]

ghost use Rattle.std.specs.Prelude.{◌≤◌, length, IfOk};
ghost use Rattle.console.specs.Next.{passed};

use channel::Receiver;
use console::{Next, PIECE, Speak, TakePieces, say};
use listing::{Lister, Wants};
use std::io;
use std::process::ExitCode;

// A recording that is being listed, and the memory that its calls are lent.
#[derive(Drop)]
struct Listing {
    recording: Lister,
    recv: [u8; Receiver::RAW],
    word: [u8; Receiver::WORD],
    out: [u8; PIECE],
}

fn main(rt: HostRuntime) -> ExitCode {
    console::status(list_all(&rt))
}

// Standard input, piece by piece as it comes.
fn list_all(rt: &(impl Input + Print + Speak)) -> io::Result<()> {
    let mut listing = Listing {
        recording: Lister::fresh(),
        recv: [0; Receiver::RAW],
        word: [0; Receiver::WORD],
        out: [0; PIECE],
    };
    let ended = console::each_piece(rt, b"listing", &mut listing)?;
    if ended {
        listing.finish(rt)?;
    }
    Ok(())
}

impl TakePieces for Listing {
    // Lines are out before the next bytes are read.
    fn take(&mut self, rt: &(impl Print + Speak), piece: &[u8]) -> io::Result<Next> {
        self.call(rt, piece)
    }
}

impl Listing {
    // One call, and its lines: it stays within what it is lent.
    fn call(&mut self, rt: &(impl Print + Speak), piece: &[u8]) -> io::Result<Next>
        ensures { IfOk result (λ next. passed next ≤ length piece.now) }
    {
        let took = self
            .recording
            .take(&mut self.recv, &mut self.word, piece, &mut self.out);
        self.recording = took.next;
        console::print(rt, b"listing", &self.out[..took.written])?;
        match took.wants {
            Ok(Wants::Room) => Ok(Next::Again(took.taken)),
            Ok(Wants::More) => self.go_on(rt),
            // No recording of less than 2^64 bytes comes to that.
            Err(_) => {
                say(rt, b"listing: the recording is too long\n");
                Ok(Next::Stop)
            }
        }
    }

    // Behind a piece. Behind a wrong byte nothing counts, so that the last line is printed there.
    fn go_on(&mut self, rt: &(impl Print + Speak)) -> io::Result<Next>
        ensures { IfOk result (λ next. passed next ≤ 0) }
    {
        if !self.recording.tape.is_wrong() {
            return Ok(Next::More);
        }
        self.finish(rt)?;
        Ok(Next::Stop)
    }

    // The last line, and where the input is no whole recording.
    fn finish(&mut self, rt: &(impl Print + Speak)) -> io::Result<()> {
        let tape = self.recording.tape;
        let last = self.recording.finish(&mut self.out);
        if console::put(rt, b"listing", last, &self.out)? && !tape.may_end() {
            console::say_wrong(rt, b"listing", tape.spot.offset);
        }
        Ok(())
    }
}
