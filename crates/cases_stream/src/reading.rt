//! A stream read in pieces. The number of the case: 31 bits that say how it is cut behind the first piece (0: not at all), whether the
//! frame is open, then raw and stored count in 16 bits each. Its bytes begin with a head, in 16 bits each: the remembered place, and the
//! length of the first piece. Those to be read follow; the output is the receive buffer. Each call is told as the bytes taken and its
//! answer (0: more wanted), a packet's format and key, and its payload, behind it; at the end the state's four numbers.
use cases::Cut;
use std::io;
use std::io::Write;
use stream::{FrameReader, Read};

const HEAD: usize = 4;

pub fn read(told: &mut impl Write, number: u64, bytes: &[u8], recv: &mut [u8]) -> io::Result<()> {
    if bytes.len() < HEAD {
        return Ok(());
    }
    let n = bytes.len() - HEAD;
    let mut frame = cases_frames::frame(number, cases::pair_at(bytes, 0));
    let mut next = Some(Cut::start(number, 0, cases::pair_at(bytes, 2).min(n)));
    for _ in 0..u64::MAX {
        let Some(cut) = next else {
            return finish(told, frame);
        };
        let read = frame.read(recv, cut.piece(&bytes[HEAD..]));
        frame = read.frame;
        next = tell(told, read, cut, n, recv)?;
    }
    Ok(())
}

// Writes the state's numbers.
fn finish(told: &mut impl Write, f: FrameReader) -> io::Result<()> {
    let numbers = [
        u64::from(f.opened),
        f.raw as u64,
        f.stored as u64,
        f.place as u64,
    ];
    cases::print_all(told, &numbers)
}

// One call, told; the next piece, of n bytes in all.
fn tell(
    told: &mut impl Write,
    read: Read,
    cut: Cut,
    n: usize,
    recv: &[u8],
) -> io::Result<Option<Cut>> {
    cases::print(told, read.taken as u64)?;
    match read.heard {
        None => {
            cases::print(told, 0)?;
            Ok(cut.more(read.taken, n))
        }
        Some(j) => Ok(cases_frames::said(told, j, recv)?.then_some(cut.rest(read.taken))),
    }
}
