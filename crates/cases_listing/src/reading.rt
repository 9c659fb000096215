//! A recording listed by calls. The number of the case: 31 bits that say how it is cut; from bit 32 on, 16 bits for the length of a piece
//! (0: as those bits say), 14 for that of the receive buffer, and 2 for where the recording stands at first. The output is the room for
//! lines, lent to each call anew; the first piece is empty. Each call is told as the bytes taken, what it wants (0: more, 1: room) and how
//! many bytes it wrote, and those. The last line stands in the output; told are its length, then the answers where just that length is
//! lent, and a byte less.
use base::Written;
use cases::Cut;
use channel::Receiver;
use listing::{Lister, Wants};
use listing_lines::Totals;
use listing_spec::Spot;
use recording::RecordingReader;
use std::io;
use std::io::Write;

// The receive buffer's least length, and the longest one that is lent.
const RECV: usize = Receiver::RAW;

// Where the listing stands.
#[derive(Drop)]
struct Place {
    recording: Lister,
    cut: Option<Cut>,
}

pub fn list(told: &mut impl Write, number: u64, bytes: &[u8], out: &mut [u8]) -> io::Result<()> {
    let mut recv = [0u8; Receiver::RAW];
    let mut word = [0u8; Receiver::WORD];
    let n = (number / 0x1000000000000 % 16384) as usize;
    if RECV < n {
        return Ok(());
    }
    run(told, start(number), bytes, &mut recv[0..n], &mut word, out)
}

// The first piece.
fn start(number: u64) -> Place {
    Place {
        recording: begin(number / 0x4000000000000000),
        cut: Some(Cut::start(number, cases::third(number), 0)),
    }
}

// Fresh; or near the stream's limit; or with the offset, or all totals, near their width.
fn begin(kind: u64) -> Lister {
    match kind {
        1 => near(0, 4294967295 - 300, 0),
        2 => near(u64::MAX - 300, 0, 0),
        3 => near(0, 0, u64::MAX - 140),
        _ => Lister::fresh(),
    }
}

fn near(offset: u64, count: u64, total: u64) -> Lister {
    Lister {
        tape: RecordingReader {
            spot: Spot {
                place: listing_spec::Place::Mode,
                offset,
                count,
            },
            channel: false,
            receiver: Receiver::fresh(),
        },
        totals: Totals {
            packets: total,
            refused: total,
            damaged: total,
            lost: total,
        },
    }
}

fn run(
    told: &mut impl Write,
    first: Place,
    bytes: &[u8],
    recv: &mut [u8],
    word: &mut [u8],
    out: &mut [u8],
) -> io::Result<()> {
    let mut place = first;
    for _ in 0..u64::MAX {
        let Some(cut) = place.cut else {
            return finish(told, place.recording, out);
        };
        place = call(told, place.recording, cut, bytes, recv, word, out)?;
    }
    Ok(())
}

fn finish(told: &mut impl Write, r: Lister, out: &mut [u8]) -> io::Result<()> {
    let n = length(told, r.finish(out))?;
    if n == 0 || out.len() < n {
        return Ok(());
    }
    length(told, r.finish(&mut out[..n]))?;
    length(told, r.finish(&mut out[..n - 1]))?;
    Ok(())
}

// Tells an answer; how many bytes were written.
fn length(told: &mut impl Write, w: Written) -> io::Result<usize> {
    cases::print(told, cases::written(w))?;
    Ok(w.unwrap_or(0))
}

// One call, told, and what follows from its answer. Where it wants room and wrote nothing, nothing would come of another.
// The buffers come one by one, as the call that is compared takes them.
fn call(
    told: &mut impl Write,
    recording: Lister,
    cut: Cut,
    bytes: &[u8],
    recv: &mut [u8],
    word: &mut [u8],
    out: &mut [u8],
) -> io::Result<Place> {
    let t = recording.take(recv, word, cut.piece(bytes), out);
    cases::print(told, t.taken as u64)?;
    cases::print(told, cases::answered(t.wants.map(wanted)))?;
    cases::show(told, t.written, out)?;
    let cut = match t.wants {
        Ok(Wants::More) => cut.more(t.taken, bytes.len()),
        Ok(Wants::Room) => (0 < t.written).then_some(cut.rest(t.taken)),
        Err(_) => None,
    };
    Ok(Place {
        recording: t.next,
        cut,
    })
}

// By name, here and in cases_board: `as` would tell the place of a variant in another crate's enum.
fn wanted(wants: Wants) -> u64 {
    match wants {
        Wants::More => 0,
        Wants::Room => 1,
    }
}
