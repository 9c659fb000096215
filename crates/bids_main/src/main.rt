//! The office's sender as a program. Standard input: lines `PORT SEQUENCE TEXT`. Standard output: the marked opportunistic stream of
//! the accepted lines, each block before more is read, or, with `--recording`, a recording of it in records of at most 1,000 bytes. A line that
//! is not sent is named on standard error. Where the input cannot be read further, that is said there, a line that is begun is not sent, and those
//! before it are; where the output cannot be written, it is said and nothing more is read. Of a line that is sent, what the yards will make of it is
//! said there too, as a warning (src/warnings.rt).
#![tactic(auto)]

mod naming;
mod output;
mod warnings;

ghost use Rattle.std.specs.Prelude.{◌≤◌};

use console::{Next, PIECE, Speak, TakePieces, say};
use naming::{name_line, say_no_bid};
use office::{Answer, Hearing, Office};
use output::{Form, print};
use std::env::Env;
use std::io;
use std::process::ExitCode;
use warnings::Watch;

// The sender, the memory that it is lent, and what the boards have seen.
#[derive(Drop)]
struct Sender {
    form: Form,
    office: Office,
    watch: Watch,
    line: [u8; PIECE],
    hold: [u8; PIECE],
    out: [u8; PIECE],
    // Bytes that wait in the output; no Vec of them, since the office writes into room that it is lent.
    waiting: usize,
}

fn main(rt: HostRuntime) -> ExitCode {
    console::status(run(&rt))
}

// What the argument asks for.
fn run(rt: &(impl Env + Input + Print + Speak)) -> io::Result<()> {
    if console::argument_count(rt) < 2 {
        return send(rt, Form::Stream);
    }
    if console::is_argument(rt, 1, b"--recording") {
        print(rt, &[0x4F])?;
        return send(rt, Form::Recording);
    }
    say(rt, b"usage: bids [--recording] <LINES >STREAM\n");
    Ok(())
}

// The whole input, sent.
fn send(rt: &(impl Input + Print + Speak), form: Form) -> io::Result<()> {
    let mut hold = [0u8; PIECE];
    match Office::start(&mut hold) {
        Ok(office) => send_from(rt, form, office, hold),
        Err(refusal) => {
            console::say_refused(rt, refusal as u8);
            Ok(())
        }
    }
}

// The same behind the start. The end of the input ends a line that is begun; where it cannot be read further, those before it are sent.
fn send_from(
    rt: &(impl Input + Print + Speak),
    form: Form,
    office: Office,
    hold: [u8; PIECE],
) -> io::Result<()> {
    let mut sender = Sender {
        form,
        office,
        watch: Watch::fresh(),
        line: [0; PIECE],
        hold,
        out: [0; PIECE],
        waiting: 0,
    };
    if console::each_piece(rt, b"bids", &mut sender)? {
        sender.end(rt)?;
    }
    sender.finish(rt)
}

impl TakePieces for Sender {
    // Bytes up to a line's end. Once the piece is through, the stream's blocks go out; a recording's wait for full records.
    fn take(&mut self, rt: &(impl Print + Speak), piece: &[u8]) -> io::Result<Next> {
        let taken = self.hear(rt, piece)?;
        if 0 < taken && taken < piece.len() {
            return Ok(Next::Again(taken));
        }
        if let Form::Stream = self.form {
            self.pass_on(rt)?;
        }
        Ok(Next::More)
    }
}

impl Sender {
    // Bytes up to the end of a line; how many.
    fn hear(&mut self, rt: &(impl Print + Speak), piece: &[u8]) -> io::Result<usize> {
        let stored = self.office.stored;
        let from = self.waiting.min(PIECE);
        let heard = self.office.hear(&mut self.line, &mut self.hold, piece, &mut self.out[from..]);
        self.behind(rt, stored, heard)?;
        Ok(heard.taken)
    }

    // The end of the input: it ends a line that is begun. As `hear`, by the office's other call.
    fn end(&mut self, rt: &(impl Print + Speak)) -> io::Result<()> {
        let stored = self.office.stored;
        let from = self.waiting.min(PIECE);
        let heard = self
            .office
            .close(&mut self.line, &mut self.hold, &mut self.out[from..]);
        self.behind(rt, stored, heard)
    }

    // Behind an answer to a line, of which so many bytes stood in its buffer before, with room for the blocks of the next one.
    fn behind(
        &mut self,
        rt: &(impl Print + Speak),
        stored: usize,
        heard: Hearing,
    ) -> io::Result<()> {
        self.told(rt, heard, stored);
        if PIECE - self.waiting.min(PIECE) < Office::OUTPUT {
            self.pass_on(rt)?;
        }
        Ok(())
    }

    // Behind an answer to a line, of which so many bytes stood in its buffer before: the blocks of one that is sent wait, with what the boards will make
    // of it; one that is not sent is named.
    fn told(&mut self, rt: &impl Speak, heard: Hearing, stored: usize) {
        self.office = heard.office;
        let number = heard.office.lines;
        let line = &self.line[..line_end(stored, heard.taken)];
        let from = self.waiting.min(PIECE);
        match heard.answer {
            Ok(Answer::More) => {}
            Ok(Answer::Sent(n)) => {
                self.waiting = from + told_bytes(n, PIECE - from);
                self.watch.heed(rt, number, line);
            }
            Ok(Answer::NoBid) => {
                name_line(rt, number);
                say_no_bid(rt, number, line);
            }
            Err(refusal) => {
                name_line(rt, number);
                console::say_refused(rt, refusal as u8);
            }
        }
    }

    // What waits goes out.
    fn pass_on(&mut self, rt: &(impl Print + Speak)) -> io::Result<()> {
        self.form.put(rt, &self.out[..self.waiting.min(PIECE)])?;
        self.waiting = 0;
        Ok(())
    }

    // The last block.
    fn finish(&mut self, rt: &(impl Print + Speak)) -> io::Result<()> {
        let from = self.waiting.min(PIECE);
        let written = self.office.finish(&self.hold, &mut self.out[from..]);
        let all = console::onward(from, written.unwrap_or(0), PIECE);
        self.form.put(rt, &self.out[..all])
    }
}

// How many bytes of a line stand in its buffer, of so many before the call and of those that it took, its end among them.
fn line_end(stored: usize, taken: usize) -> usize
    ensures { result ≤ 65536 }
{
    console::onward(stored.min(PIECE), taken.saturating_sub(1), PIECE)
}

// How many bytes of the room behind what waits a line that is sent fills, of so many written there.
fn told_bytes(written: usize, room: usize) -> usize
    ensures { result ≤ room }
{
    written.min(room)
}
