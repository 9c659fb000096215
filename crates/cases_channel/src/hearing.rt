//! A channel heard in pieces. The number of the case is as for a stream (crates/cases_stream/src/reading.rt). Its bytes begin with a head: whether the
//! receiver is locked, its four hunted bytes, then in 16 bits each the counts of word, handed on and marker, the length of the first
//! piece, that of the word buffer, and the remembered place. The word buffer's bytes follow, then those to be heard; the output is the
//! receive buffer. Each call is told as the bytes taken and its answer (0: more wanted, 1: clean, 2: beyond repair, 3: lock lost, 256 + n:
//! repaired in n places), a packet's format and key, and its payload, behind it; at the end the state's numbers, the hunted bytes and the
//! word buffer.
use cases::Cut;
use channel::{Answer, Condition, Hunting, Locked, Receiver};
use std::io;
use std::io::Write;

const HEAD: usize = 17;

// Where the hearing stands.
#[derive(Drop)]
struct Place {
    receiver: Receiver,
    cut: Option<Cut>,
}

// Nothing is heard where the head is cut short, or where it tells of more of the word buffer than there is.
pub fn hear(told: &mut impl Write, number: u64, bytes: &[u8], recv: &mut [u8]) -> io::Result<()> {
    let mut word = [0u8; 300];
    let Some((head, behind)) = bytes.split_first_chunk::<HEAD>() else {
        return Ok(());
    };
    let size = cases::pair_at(head, 13);
    if word.len() < size || behind.len() < size {
        return Ok(());
    }
    let (stored, heard) = behind.split_at(size);
    let word = &mut word[..size];
    word.copy_from_slice(stored);
    run(told, start(number, head, heard.len()), heard, recv, word)?;
    told.write_all(word)
}

// The first piece, of n bytes at most.
fn start(number: u64, head: &[u8; HEAD], n: usize) -> Place {
    Place {
        receiver: receiver(number, head),
        cut: Some(Cut::start(number, 0, n.min(cases::pair_at(head, 11)))),
    }
}

// The receiver of a head.
fn receiver(number: u64, head: &[u8; HEAD]) -> Receiver {
    Receiver {
        locked: head[0] == 1,
        hunting: Hunting {
            a: head[1],
            b: head[2],
            c: head[3],
            d: head[4],
        },
        lock: Locked {
            word: cases::pair_at(head, 5),
            handed: cases::pair_at(head, 7),
            marker: cases::pair_at(head, 9),
        },
        frame: cases_frames::frame(number, cases::pair_at(head, 15)),
    }
}

fn run(
    told: &mut impl Write,
    first: Place,
    bytes: &[u8],
    recv: &mut [u8],
    word: &mut [u8],
) -> io::Result<()> {
    let mut place = first;
    for _ in 0..u64::MAX {
        let Some(cut) = place.cut else {
            return finish(told, place.receiver);
        };
        place = call(told, place.receiver, cut, bytes, recv, word)?;
    }
    Ok(())
}

// Writes the state's numbers and the hunted bytes.
fn finish(told: &mut impl Write, r: Receiver) -> io::Result<()> {
    let lock = r.lock;
    let frame = r.frame;
    let hunting = r.hunting;
    let numbers = [
        u64::from(r.locked),
        lock.word as u64,
        lock.handed as u64,
        lock.marker as u64,
        u64::from(frame.opened),
        frame.raw as u64,
        frame.stored as u64,
        frame.place as u64,
        u64::from(hunting.a),
        u64::from(hunting.b),
        u64::from(hunting.c),
        u64::from(hunting.d),
    ];
    cases::print_all(told, &numbers)
}

// One call, told, and what follows from its answer.
fn call(
    told: &mut impl Write,
    receiver: Receiver,
    cut: Cut,
    bytes: &[u8],
    recv: &mut [u8],
    word: &mut [u8],
) -> io::Result<Place> {
    let h = receiver.hear(recv, word, cut.piece(bytes));
    cases::print(told, h.taken as u64)?;
    let cut = match h.answer {
        Answer::More => {
            cases::print(told, 0)?;
            cut.more(h.taken, bytes.len())
        }
        Answer::Said(j) => cases_frames::said(told, j, recv)?.then_some(cut.rest(h.taken)),
        Answer::Block(condition) => {
            cases::print(told, block(condition))?;
            Some(cut.rest(h.taken))
        }
        Answer::LockLost => {
            cases::print(told, 3)?;
            Some(cut.rest(h.taken))
        }
    };
    Ok(Place {
        receiver: h.receiver,
        cut,
    })
}

// Repaired is a number of its own: all others are below 4, or 65,536 and more. As in cases_four, and why twice is said there.
fn block(condition: Condition) -> u64 {
    match condition {
        Condition::Clean => 1,
        Condition::Repaired(n) => 256 + n as u64 % 256,
        Condition::Beyond => 2,
    }
}
