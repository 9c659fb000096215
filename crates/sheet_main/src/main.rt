//! The monthly sheet as a program, `sheet progress|quiet FIRST LAST FILE..`: counts the packets of ports FIRST to LAST of the recordings named, and
//! prints a line for each port on standard output. On standard error it says which recordings do not count, and why; with `progress` also which one
//! it is at. Behind a wrong byte of a recording it reads no more of it.
#![tactic(auto)]

use base::Refusal;
use channel::Receiver;
use console::{ARGUMENT, PIECE, Speak, say};
use ports_spec::Range;
use recording::RecordingReader;
use sheet::{Closed, Draft, Sheet, Uncounted};
use std::env::Env;
use std::io::{ErrorKind, Read};
use std::process::ExitCode;
use std::rt::Files;
use std::{fs, io};

// Whether it is said which recording is at hand.
#[derive(Clone, Copy)]
enum Telling {
    Progress,
    Quiet,
}

// A recording that is counted, and the memory that its calls are lent.
#[derive(Drop)]
struct Hearing {
    range: Range,
    tape: RecordingReader,
    draft: Draft,
    recv: [u8; Receiver::RAW],
    word: [u8; Receiver::WORD],
}

fn main(rt: HostRuntime) -> ExitCode {
    console::status(run(&rt))
}

// The ports and the recordings that the arguments name.
fn run(rt: &(impl Env + Files + Print + Speak)) -> io::Result<()> {
    let count = console::argument_count(rt);
    match console::named_range(rt, 2) {
        Some(range) if count > 4 => print_all(rt, count_all(rt, range, Telling::asked(rt), count)),
        _ => {
            usage(rt);
            Ok(())
        }
    }
}

fn usage(rt: &impl Speak) {
    say(
        rt,
        b"usage: sheet progress|quiet FIRST LAST FILE..; FIRST and LAST are ports\n",
    );
}

// The sheet of the recordings that the arguments behind the fourth name.
fn count_all(
    rt: &(impl Env + Files + Speak),
    range: Range,
    telling: Telling,
    count: usize,
) -> Sheet {
    let mut sheet = Sheet::fresh();
    for i in 4..count {
        telling.tell(rt, i - 3, count - 4);
        sheet = counted(rt, range, sheet, i);
    }
    sheet
}

impl Telling {
    // What the first argument asks for.
    fn asked(rt: &impl Env) -> Self {
        if console::is_argument(rt, 1, b"progress") {
            return Telling::Progress;
        }
        Telling::Quiet
    }

    // Which recording of how many.
    fn tell(self, rt: &impl Speak, i: usize, all: usize) {
        match self {
            Telling::Progress => say_progress(rt, i, all),
            Telling::Quiet => {}
        }
    }
}

// `recording N of M`, a line.
fn say_progress(rt: &impl Speak, i: usize, all: usize) {
    say(rt, b"recording ");
    console::say_number(rt, i as u64);
    say(rt, b" of ");
    console::say_number(rt, all as u64);
    say(rt, b"\n");
}

// The sheet with the recording that argument i names.
fn counted(rt: &(impl Env + Files + Speak), range: Range, sheet: Sheet, i: usize) -> Sheet {
    let mut space = [0u8; ARGUMENT];
    let name = console::argument(rt, i, &mut space);
    let heard = match open(rt, name) {
        Ok(file) => hear_all(range, sheet, file),
        Err(_) => None,
    };
    match heard {
        Some(closed) => {
            tell_counted(rt, name, closed.counted);
            closed.sheet
        }
        None => {
            tell(rt, name, b": cannot be read\n");
            sheet
        }
    }
}

// The file of this name, which is UTF-8.
fn open<R: Files>(rt: &R, name: &[u8]) -> io::Result<R::File> {
    match str::from_utf8(name) {
        Ok(path) => fs::open(rt, path),
        Err(_) => Err(io::Error::from(ErrorKind::InvalidFilename)),
    }
}

// A recording, piece by piece; none where it cannot be read to its end, or to a wrong byte. A file and not standard input, so not by
// console::each_piece.
fn hear_all(range: Range, sheet: Sheet, mut file: impl Read + Drop) -> Option<Closed> {
    let mut hearing = Hearing {
        range,
        tape: RecordingReader::fresh(),
        draft: sheet.begin(),
        recv: [0; Receiver::RAW],
        word: [0; Receiver::WORD],
    };
    let mut piece = [0u8; PIECE];
    for _ in 0..u64::MAX {
        let n = file.read(&mut piece).ok()?;
        hearing.hear(&piece[..n]).ok()?;
        if n == 0 || hearing.tape.is_wrong() {
            return Some(hearing.draft.close(hearing.tape.may_end()));
        }
    }
    None
}

impl Hearing {
    // A piece, until more is wanted: its packets are noted. No recording of less than 2^64 bytes is refused.
    fn hear(&mut self, piece: &[u8]) -> Result<(), Refusal> {
        let mut rest = piece;
        for _ in 0..u64::MAX {
            let next = self.tape.next_packet(&mut self.recv, &mut self.word, rest);
            self.tape = next.tape;
            rest = &rest[console::onward(0, next.taken, rest.len())..];
            let Some(delivery) = next.found? else {
                break;
            };
            self.draft = self
                .draft
                .note(self.range, delivery.port, delivery.sequence);
        }
        Ok(())
    }
}

// What becomes of a recording, where it does not count.
fn tell_counted(rt: &impl Speak, name: &[u8], counted: Result<(), Uncounted>) {
    match counted {
        Ok(()) => {}
        Err(Uncounted::Wrong) => tell(rt, name, b": ends in X\n"),
        Err(Uncounted::Refused(refusal)) => {
            tell(rt, name, b": ");
            console::say_refused(rt, refusal as u8);
        }
    }
}

// The lines.
fn print_all(rt: &(impl Print + Speak), sheet: Sheet) -> io::Result<()> {
    let mut text = [0u8; Sheet::LINE];
    for i in 0..Sheet::PORTS {
        let written = sheet.print(i, &mut text);
        if !console::put(rt, b"sheet", written, &text)? {
            break;
        }
    }
    Ok(())
}

// A file's name, and what is to be said of it.
fn tell(rt: &impl Speak, name: &[u8], what: &[u8]) {
    say(rt, name);
    say(rt, what);
}
