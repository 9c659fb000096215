//! Writes the delivered packets of the recording on standard input as a capture for the network viewer, on standard output. Bytes are read as
//! they come, and a packet's record is out before the next are read. Where something fails, or the recording does not end as one, it says so on
//! standard error; behind a wrong byte it reads no more.
#![tactic(auto)]

use capture::CaptureReader;
use channel::Receiver;
use console::{Next, Speak, TakePieces, say};
use packet::Delivery;
use recording::RecordingReader;
use std::io;
use std::process::ExitCode;

// A recording whose packets are written, and the memory that its calls are lent.
#[derive(Drop)]
struct Export {
    tape: RecordingReader,
    // The number of the next packet.
    number: u32,
    recv: [u8; Receiver::RAW],
    word: [u8; Receiver::WORD],
    out: [u8; CaptureReader::ENTRY],
}

fn main(rt: HostRuntime) -> ExitCode {
    console::status(hear_all(&rt))
}

// Standard input, piece by piece as it comes, behind the capture's beginning.
fn hear_all(rt: &(impl Input + Print + Speak)) -> io::Result<()> {
    let mut export = Export {
        tape: RecordingReader::fresh(),
        number: 0,
        recv: [0; Receiver::RAW],
        word: [0; Receiver::WORD],
        out: [0; CaptureReader::ENTRY],
    };
    let begun = capture::begin(&mut export.out);
    if !console::put(rt, b"capture", begun, &export.out)? {
        return Ok(());
    }
    let ended = console::each_piece(rt, b"capture", &mut export)?;
    if ended {
        export.finish(rt);
    }
    Ok(())
}

impl TakePieces for Export {
    // A packet's record is out before the next bytes are read.
    fn take(&mut self, rt: &(impl Print + Speak), piece: &[u8]) -> io::Result<Next> {
        let next = self.tape.next_packet(&mut self.recv, &mut self.word, piece);
        self.tape = next.tape;
        match next.found {
            Ok(None) => Ok(self.go_on(rt)),
            Ok(Some(delivery)) => {
                if self.enter(rt, delivery)? {
                    Ok(Next::Again(next.taken))
                } else {
                    Ok(Next::Stop)
                }
            }
            Err(_) => {
                say(rt, b"capture: the recording is too long\n");
                Ok(Next::Stop)
            }
        }
    }
}

impl Export {
    // Behind a piece; no more is read behind a wrong byte. As in the other programs over a recording: what each says at a wrong byte is its own.
    fn go_on(&self, rt: &impl Speak) -> Next {
        if !self.tape.is_wrong() {
            return Next::More;
        }
        self.finish(rt);
        Next::Stop
    }

    // A packet's record; whether it went to standard output. A recording has fewer packets than stream bytes, so none comes to the last number.
    fn enter(&mut self, rt: &(impl Print + Speak), delivery: Delivery) -> io::Result<bool> {
        let packed = capture::packed(&self.recv, delivery);
        let entered = capture::enter(self.number, packed, &mut self.out);
        self.number = self.number.saturating_add(1);
        console::put(rt, b"capture", entered, &self.out)
    }

    // Whether the recording ends as one, and where it does not.
    fn finish(&self, rt: &impl Speak) {
        if !self.tape.may_end() {
            console::say_wrong(rt, b"capture", self.tape.spot.offset);
        }
    }
}
