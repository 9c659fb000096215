//! Which bids are missing, `missed FIRST LAST`: notes each packet of the recording on standard input, of these ports, in a table of ports, and prints
//! a line of it on standard output: its port, its sequence number, and what it is to that port. Where something fails, or the recording does not end
//! as one, it says so on standard error; behind a wrong byte it reads no more.
#![tactic(auto)]

use channel::Receiver;
use console::{Next, Speak, TakePieces, say};
use missed::{Notes, Wants};
use ports_spec::Range;
use std::env::Env;
use std::io;
use std::process::ExitCode;

// A recording whose packets are noted, and the memory that its calls are lent.
#[derive(Drop)]
struct Hearing {
    notes: Notes,
    recv: [u8; Receiver::RAW],
    word: [u8; Receiver::WORD],
    out: [u8; Notes::ROOM],
}

fn main(rt: HostRuntime) -> ExitCode {
    console::status(run(&rt))
}

// The ports that the arguments name.
fn run(rt: &(impl Env + Input + Print + Speak)) -> io::Result<()> {
    match console::named_range(rt, 1) {
        Some(range) if console::argument_count(rt) == 3 => hear_all(rt, range),
        _ => {
            usage(rt);
            Ok(())
        }
    }
}

fn usage(rt: &impl Speak) {
    say(
        rt,
        b"usage: missed FIRST LAST <RECORDING; FIRST and LAST are ports\n",
    );
}

// Standard input, piece by piece as it comes.
fn hear_all(rt: &(impl Input + Print + Speak), range: Range) -> io::Result<()> {
    let mut hearing = Hearing {
        notes: Notes::fresh(range),
        recv: [0; Receiver::RAW],
        word: [0; Receiver::WORD],
        out: [0; Notes::ROOM],
    };
    let ended = console::each_piece(rt, b"missed", &mut hearing)?;
    if ended {
        hearing.finish(rt);
    }
    Ok(())
}

impl TakePieces for Hearing {
    // Lines are out before the next bytes are read.
    fn take(&mut self, rt: &(impl Print + Speak), piece: &[u8]) -> io::Result<Next> {
        let took = self
            .notes
            .take(&mut self.recv, &mut self.word, piece, &mut self.out);
        self.notes = took.next;
        console::print(rt, b"missed", &self.out[..took.written.min(Notes::ROOM)])?;
        match took.wants {
            Ok(Wants::Again) => Ok(Next::Again(took.taken)),
            Ok(Wants::More) => Ok(self.go_on(rt)),
            // No recording of less than 2^64 bytes comes to that.
            Err(_) => {
                say(rt, b"missed: the recording is too long\n");
                Ok(Next::Stop)
            }
        }
    }
}

impl Hearing {
    // Behind a piece. Nothing behind a wrong byte counts, so that no more is read there.
    fn go_on(&self, rt: &impl Speak) -> Next {
        if !self.notes.tape.is_wrong() {
            return Next::More;
        }
        self.finish(rt);
        Next::Stop
    }

    // Whether the recording ends as one, and where it does not.
    fn finish(&self, rt: &impl Speak) {
        let tape = self.notes.tape;
        if !tape.may_end() {
            console::say_wrong(rt, b"missed", tape.spot.offset);
        }
    }
}
