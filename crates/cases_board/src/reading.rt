//! A stream or a recording read out by calls. The number of the case: 31 bits that say how it is cut; from bit 32 on, 14 bits for the length of a
//! piece (0: as those bits say), 2 for how the board stands at first, 14 for the length of the receive buffer, and a bit each for bare bytes and
//! for blocks told. Its first four bytes: the first and the last port of the range. The output is lent to each call anew; the first piece is empty.
//! Each call is told as the bytes taken, what it wants (0: more, 1: another call) and how many bytes it wrote, and those. Last comes what is still to
//! be said: its length, and its bytes.
use board::{Owed, Readout, Wants};
use board_lines::Piece;
use cases::Cut;
use channel::Receiver;
use listing_spec::Spot;
use ports::{Entry, Ports};
use ports_spec::Range;
use recording::RecordingReader;
use std::io;
use std::io::Write;

// The receive buffer's least length, and the longest one that is lent.
const RECV: usize = Receiver::RAW;

// Where the reading stands.
#[derive(Drop)]
struct Place {
    readout: Readout,
    cut: Option<Cut>,
}

// Bytes before those that are read out: the range.
const ENDS: usize = 4;

pub fn read_out(
    told: &mut impl Write,
    number: u64,
    bytes: &[u8],
    out: &mut [u8],
) -> io::Result<()> {
    if bytes.len() < ENDS {
        return Ok(());
    }
    let range = Range {
        first: end_at(bytes, 0),
        last: end_at(bytes, 2),
    };
    lend(told, number, range, &bytes[ENDS..], out)
}

fn end_at(bytes: &[u8], at: usize) -> u16 {
    cases::half(cases::number_at(bytes, at))
}

fn lend(
    told: &mut impl Write,
    number: u64,
    range: Range,
    bytes: &[u8],
    out: &mut [u8],
) -> io::Result<()> {
    let mut recv = [0u8; Receiver::RAW];
    let mut word = [0u8; Receiver::WORD];
    let n = (number / 0x1000000000000 % 16384) as usize;
    if RECV < n {
        return Ok(());
    }
    run(
        told,
        start(number, range),
        bytes,
        &mut recv[0..n],
        &mut word,
        out,
    )
}

// The first piece.
fn start(number: u64, range: Range) -> Place {
    let bare = number / 0x4000000000000000 % 2 == 1;
    let blocks = number / 0x8000000000000000 == 1;
    let size = (number / 0x100000000 % 16384) as usize;
    Place {
        readout: begin(
            number / 0x400000000000 % 4,
            Readout::fresh(bare, blocks, range),
        ),
        cut: Some(Cut::start(number, size, 0)),
    }
}

// Fresh; or with the offset near its width; or with a port held twice, or a piece owed that is longer than its bytes.
fn begin(kind: u64, fresh: Readout) -> Readout {
    match kind {
        1 => near(fresh),
        2 => twice(fresh),
        3 => longer(fresh),
        _ => fresh,
    }
}

fn near(fresh: Readout) -> Readout {
    Readout {
        tape: RecordingReader {
            spot: Spot {
                offset: u64::MAX - 300,
                ..fresh.tape.spot
            },
            ..fresh.tape
        },
        ..fresh
    }
}

fn twice(fresh: Readout) -> Readout {
    let held = Entry {
        held: true,
        port: 7,
        last: 0,
    };
    Readout {
        ports: Ports {
            entries: [held; 16],
        },
        ..fresh
    }
}

fn longer(fresh: Readout) -> Readout {
    Readout {
        owed: Owed {
            piece: Piece {
                bytes: [0u8; listing_lines::Line::LONGEST],
                length: 129,
            },
            ..fresh.owed
        },
        ..fresh
    }
}

// As in cases_listing and cases_channel: each of another state and answer, told in another form.
fn run(
    told: &mut impl Write,
    first: Place,
    bytes: &[u8],
    recv: &mut [u8],
    word: &mut [u8],
    out: &mut [u8],
) -> io::Result<()> {
    let mut place = first;
    for _ in 0..u64::MAX {
        let Some(cut) = place.cut else {
            return finish(told, place.readout);
        };
        place = call(told, place.readout, cut, bytes, recv, word, out)?;
    }
    Ok(())
}

fn finish(told: &mut impl Write, readout: Readout) -> io::Result<()> {
    let last = readout.finish();
    cases::show(told, last.length, &last.bytes)
}

// One call, told, and what follows from its answer. Where it took nothing and there is no room, nothing would come of another.
// The buffers come one by one, as the call that is compared takes them.
fn call(
    told: &mut impl Write,
    readout: Readout,
    cut: Cut,
    bytes: &[u8],
    recv: &mut [u8],
    word: &mut [u8],
    out: &mut [u8],
) -> io::Result<Place> {
    let t = readout.take(recv, word, cut.piece(bytes), out);
    cases::print(told, t.taken as u64)?;
    cases::print(told, cases::answered(t.wants.map(wanted)))?;
    cases::show(told, t.written, out)?;
    let cut = match t.wants {
        Ok(Wants::More) => cut.more(t.taken, bytes.len()),
        Ok(Wants::Again) => (0 < t.taken || 0 < out.len()).then_some(cut.rest(t.taken)),
        Err(_) => None,
    };
    Ok(Place {
        readout: t.next,
        cut,
    })
}

// By name, here and in cases_listing: `as` would tell the place of a variant in another crate's enum.
fn wanted(wants: Wants) -> u64 {
    match wants {
        Wants::More => 0,
        Wants::Again => 1,
    }
}
