//! Sends the packets of the capture on standard input again: on standard output a recording of their plain stream, the first flag in a record of
//! its own and each packet in one. Bytes are read as they come, and a packet's record is out before the next are read. Where the capture is
//! refused, or something fails, it says so on standard error and stops; what came before is there.
#![tactic(auto)]

use base::{Refusal, Written};
use capture::CaptureReader;
use console::{Next, Speak, TakePieces, say};
use packet::{Delivery, Judged, Packet};
use std::io;
use std::process::ExitCode;

// What is read and sent so far, and the memory that its calls are lent.
#[derive(Drop)]
struct Replay {
    capture: CaptureReader,
    packets: u64,
    // Stream bytes.
    bytes: u64,
    store: [u8; CaptureReader::STORED],
    out: [u8; Packet::RAW],
}

// Stream bytes of a recording, at most.
const MOST: u64 = 4294967295;

fn main(rt: HostRuntime) -> ExitCode {
    console::status(run(&rt))
}

// Standard input, piece by piece as it comes, behind the first flag.
fn run(rt: &(impl Input + Print + Speak)) -> io::Result<()> {
    let mut replay = Replay {
        capture: CaptureReader::fresh(),
        packets: 0,
        bytes: 1,
        store: [0; CaptureReader::STORED],
        out: [0; Packet::RAW],
    };
    let begun = stream::begin(&mut replay.out);
    console::print(rt, b"replay", &[0x50])?;
    if put(rt, begun, &replay.out)? && console::each_piece(rt, b"replay", &mut replay)? {
        replay.finish(rt);
    }
    Ok(())
}

impl TakePieces for Replay {
    // A packet's record is out before the next bytes are read.
    fn take(&mut self, rt: &(impl Print + Speak), piece: &[u8]) -> io::Result<Next> {
        let told = self.capture.read(&mut self.store, piece);
        self.capture = told.capture;
        match told.heard {
            None => Ok(Next::More),
            Some(judged) => {
                if self.pass(rt, judged)? {
                    Ok(Next::Again(told.taken))
                } else {
                    Ok(Next::Stop)
                }
            }
        }
    }
}

impl Replay {
    // An answer: a packet is sent, and a refusal ends the work. Whether the capture is read further, else it was said why not.
    fn pass(&mut self, rt: &(impl Print + Speak), judged: Judged) -> io::Result<bool> {
        let number = match judged {
            Judged::Packet(delivery) => return self.send(rt, delivery),
            Judged::Refused(number) => number,
            Judged::Broken(_) => Refusal::Escape as u8,
        };
        say_refused(rt, number, self.packets);
        Ok(false)
    }

    // A packet, where the recording has room for it.
    fn send(&mut self, rt: &(impl Print + Speak), delivery: Delivery) -> io::Result<bool> {
        let appended = stream::append_as(
            &mut self.out,
            0,
            delivery.format,
            delivery.number,
            stream::key(&self.store, delivery),
            delivery.port,
            delivery.sequence,
            stream::payload(&self.store, delivery),
        );
        if let Ok(n) = appended {
            self.packets = self.packets.saturating_add(1);
            self.bytes = self.bytes.saturating_add(n as u64);
        }
        Ok(self.fits(rt) && put(rt, appended, &self.out)?)
    }

    // Whether a recording holds so many stream bytes.
    fn fits(&self, rt: &impl Speak) -> bool {
        if MOST < self.bytes {
            say(rt, b"replay: the recording is full\n");
            return false;
        }
        true
    }

    // The end of the capture.
    fn finish(&self, rt: &impl Speak) {
        if let Err(refusal) = self.capture.finish() {
            say_refused(rt, refusal as u8, self.packets);
        }
    }
}

// A refusal and the record that it is for; the first 24 bytes are no record.
fn say_refused(rt: &impl Speak, number: u8, record: u64) {
    say(rt, b"replay: refused ");
    console::say_number(rt, u64::from(number));
    if number != Refusal::Capture as u8 {
        say(rt, b" at record ");
        console::say_number(rt, record);
    }
    console::say_why(rt, number);
}

// Stream bytes in a record, to standard output; whether there are such.
fn put(rt: &(impl Print + Speak), written: Written, out: &[u8]) -> io::Result<bool> {
    match written {
        Ok(n) => {
            console::put_record(rt, b"replay", &out[..n.min(out.len())])?;
            Ok(true)
        }
        Err(refusal) => {
            console::say_refusal(rt, b"replay", refusal as u8);
            Ok(false)
        }
    }
}
