//! A capture read in pieces. The number of the case: how it is cut behind the first piece (0: not at all). Its bytes begin with a head: where the
//! reading stands (0: in the header, 1: in a record's head, 2: in a record, 3: behind a fault), two numbers of 32 bits of that, and the length of the
//! first piece in 16 bits. Those to be read follow; the output is the store. Each call is told as the bytes taken and its answer (0: more wanted),
//! a packet's format and key, its payload and all of its bytes, behind it; at the end the state's three numbers, and what the end of the file says
//! (0: it is whole).
use capture::{CaptureReader, Read};
use cases::Cut;
use packet::Judged;
use std::io;
use std::io::Write;

const HEAD: usize = 11;

// As in cases_stream: each of another state and answer, told in another form.
pub fn read(told: &mut impl Write, number: u64, bytes: &[u8], store: &mut [u8]) -> io::Result<()> {
    if bytes.len() < HEAD {
        return Ok(());
    }
    let n = bytes.len() - HEAD;
    let mut capture = state(bytes[0], four_at(bytes, 1), four_at(bytes, 5));
    let mut next = Some(Cut::start(number, 0, cases::pair_at(bytes, 9).min(n)));
    for _ in 0..u64::MAX {
        let Some(cut) = next else {
            return finish(told, capture);
        };
        let read = capture.read(store, cut.piece(&bytes[HEAD..]));
        capture = read.capture;
        next = tell(told, read, cut, n, store)?;
    }
    Ok(())
}

fn four_at(bytes: &[u8], at: usize) -> usize {
    (cases::number_at(bytes, at) % 0x100000000) as usize
}

// The state in the head of a case.
fn state(kind: u8, first: usize, second: usize) -> CaptureReader {
    match kind {
        0 => CaptureReader::Header(first),
        1 => CaptureReader::Head(first),
        2 => CaptureReader::Record {
            size: first,
            done: second,
        },
        _ => CaptureReader::Behind(cases::low(first as u64)),
    }
}

// The same the other way round.
fn numbers(capture: CaptureReader) -> [u64; 3] {
    match capture {
        CaptureReader::Header(n) => [0, n as u64, 0],
        CaptureReader::Head(n) => [1, n as u64, 0],
        CaptureReader::Record { size, done } => [2, size as u64, done as u64],
        CaptureReader::Behind(n) => [3, u64::from(n), 0],
    }
}

// Writes the state's numbers, and what the end of the file says.
fn finish(told: &mut impl Write, capture: CaptureReader) -> io::Result<()> {
    cases::print_all(told, &numbers(capture))?;
    cases::print(told, cases::answered(capture.finish().map(|()| 0)))
}

// One call, told; the next piece, of n bytes in all.
fn tell(
    told: &mut impl Write,
    read: Read,
    cut: Cut,
    n: usize,
    store: &[u8],
) -> io::Result<Option<Cut>> {
    cases::print(told, read.taken as u64)?;
    match read.heard {
        None => {
            cases::print(told, 0)?;
            Ok(cut.more(read.taken, n))
        }
        Some(j) => Ok(said(told, j, store)?.then_some(cut.rest(read.taken))),
    }
}

// All bytes of a packet stand behind its payload.
fn said(told: &mut impl Write, j: Judged, store: &[u8]) -> io::Result<bool> {
    let go = cases_frames::said(told, j, store)?;
    if let Judged::Packet(d) = j {
        told.write_all(capture::packed(store, d))?;
    }
    Ok(go)
}
