//! The receiver's cases. A call is told as the bytes taken and its answer (0: more wanted, 1: clean, 2: beyond repair, 3: lock lost, 256 + n:
//! repaired in n places), a packet's format and key, and its payload, behind it. The numbers of a sub-channel, as x sets them in 16 bits each and
//! v tells them: told, R, depth, locked, lost; the four hunted bytes (of x two to a number); bytes of the group, of the marker, of the word,
//! message bytes handed on; a frame's opened, raw count, stored bytes, remembered place; whether the first pass is over, the cells' place.
use channel::{Answer, Condition, Hunting};
use four_receivers::{Receiver, Seat};
use interleaver::Matrix;
use std::io;
use std::io::Write;
use stream::FrameReader;
use subchannel::{Counts, Lane, Settings, Sub};

// The receive buffers and the word buffers of four sub-channels, one behind the other: an array of arrays does not tell how long its own are.
const RAWS: usize = Receiver::MOST * Sub::RAW;

const WORDS: usize = Receiver::MOST * Sub::WORD;

// A receiver of four, its cells, and each sub-channel's two buffers.
#[derive(Drop)]
pub struct Four {
    receiver: Receiver,
    cells: [[u8; Matrix::CELLS]; Receiver::MOST],
    recv: [u8; RAWS],
    word: [u8; WORDS],
}

impl Four {
    pub fn fresh() -> Self {
        Four {
            receiver: Receiver::fresh(),
            cells: [[0; Matrix::CELLS]; Receiver::MOST],
            recv: [0xA5; RAWS],
            word: [0xA5; WORDS],
        }
    }

    // As fresh, where it stands: a second one would be laid beside it in every case.
    pub fn begin(&mut self) {
        self.receiver = Receiver::fresh();
        for cells in self.cells.iter_mut() {
            cells.fill(0);
        }
        self.recv.fill(0xA5);
        self.word.fill(0xA5);
    }

    pub fn configure(&mut self, told: &mut impl Write, number: u64) -> io::Result<()> {
        let done = self.receiver.configure(
            cases::first(number),
            cases::second(number),
            cases::third(number),
            &mut self.cells,
        );
        self.receiver = done.receiver;
        cases::print(told, cases::answered(done.answer.map(|()| 0)))
    }

    // Lends the two buffers of a sub-channel, as much of them as the case says; beyond the four those of the last.
    pub fn hear(&mut self, told: &mut impl Write, number: u64, piece: &[u8]) -> io::Result<()> {
        let n = cases::first(number);
        let from = Sub::RAW * n.min(3);
        let at = Sub::WORD * n.min(3);
        let to = from + cases::second(number).min(Sub::RAW);
        let end = at + cases::third(number).min(Sub::WORD);
        let recv = &mut self.recv[from..to];
        let word = &mut self.word[at..end];
        self.receiver = hear_all(told, self.receiver, n, &mut self.cells, recv, word, piece)?;
        Ok(())
    }

    // Sets a sub-channel's numbers.
    pub fn set(&mut self, number: u64, x: &[u8]) {
        let seat = Seat {
            lane: lane(x),
            again: is_set(x, 30),
            place: cases::pair_at(x, 32),
        };
        let receiver = self.receiver;
        self.receiver = match cases::first(number) {
            0 => Receiver {
                a: seat,
                ..receiver
            },
            1 => Receiver {
                b: seat,
                ..receiver
            },
            2 => Receiver {
                c: seat,
                ..receiver
            },
            _ => Receiver {
                d: seat,
                ..receiver
            },
        };
    }

    pub fn view(&self, told: &mut impl Write, number: u64, room: usize) -> io::Result<()> {
        let k = cases::first(number).min(3);
        let seat = match k {
            0 => self.receiver.a,
            1 => self.receiver.b,
            2 => self.receiver.c,
            _ => self.receiver.d,
        };
        print_lane(told, seat.lane)?;
        cases::print(told, u64::from(seat.again))?;
        cases::print(told, seat.place as u64)?;
        let cells = self.cells[k];
        told.write_all(&self.recv[Sub::RAW * k..Sub::RAW * (k + 1)])?;
        told.write_all(&self.word[Sub::WORD * k..Sub::WORD * (k + 1)])?;
        print_cells(told, cells, room)
    }
}

// As many as there is room for.
fn print_cells(told: &mut impl Write, cells: [u8; Matrix::CELLS], room: usize) -> io::Result<()> {
    told.write_all(&cells[..room.min(Matrix::CELLS)])
}

// A piece, until more is wanted or a call is refused: the receiver behind it. The buffers come one by one, as the call that is compared
// takes them.
fn hear_all(
    told: &mut impl Write,
    first: Receiver,
    n: usize,
    cells: &mut [[u8; Matrix::CELLS]; Receiver::MOST],
    recv: &mut [u8],
    word: &mut [u8],
    piece: &[u8],
) -> io::Result<Receiver> {
    let mut receiver = first;
    let mut rest = piece;
    for _ in 0..u64::MAX {
        let heard = receiver.hear(n, cells, recv, word, rest);
        receiver = heard.receiver;
        rest = &rest[heard.taken.min(rest.len())..];
        if !goes_on(told, heard.taken, heard.answer, recv)? {
            return Ok(receiver);
        }
    }
    Ok(receiver)
}

// As in cases_channel, where its numbers are said: a third crate over `channel` for what is told of an answer would be no plainer.
fn block(condition: Condition) -> u64 {
    match condition {
        Condition::Clean => 1,
        Condition::Repaired(n) => 256 + n as u64 % 256,
        Condition::Beyond => 2,
    }
}

// Tells a call: whether the piece is handed in again.
fn goes_on(told: &mut impl Write, taken: usize, answer: Answer, recv: &[u8]) -> io::Result<bool> {
    cases::print(told, taken as u64)?;
    match answer {
        Answer::More => {
            cases::print(told, 0)?;
            Ok(false)
        }
        Answer::Said(j) => cases_frames::said(told, j, recv),
        Answer::Block(condition) => {
            cases::print(told, block(condition))?;
            Ok(true)
        }
        Answer::LockLost => {
            cases::print(told, 3)?;
            Ok(true)
        }
    }
}

fn lane(x: &[u8]) -> Lane {
    Lane {
        settings: Settings {
            told: is_set(x, 0),
            parity: cases::pair_at(x, 2),
            depth: cases::pair_at(x, 4),
        },
        locked: is_set(x, 6),
        lost: is_set(x, 8),
        hunting: hunting(x),
        counts: counts(x),
        frame: frame(x),
    }
}

fn is_set(x: &[u8], at: usize) -> bool {
    cases::pair_at(x, at) == 1
}

fn hunting(x: &[u8]) -> Hunting {
    if x.len() < 14 {
        return Hunting::fresh();
    }
    Hunting {
        a: x[10],
        b: x[11],
        c: x[12],
        d: x[13],
    }
}

fn counts(x: &[u8]) -> Counts {
    Counts {
        group: cases::pair_at(x, 14),
        marker: cases::pair_at(x, 16),
        word: cases::pair_at(x, 18),
        handed: cases::pair_at(x, 20),
    }
}

fn frame(x: &[u8]) -> FrameReader {
    FrameReader {
        opened: is_set(x, 22),
        raw: cases::pair_at(x, 24),
        stored: cases::pair_at(x, 26),
        place: cases::pair_at(x, 28),
    }
}

fn print_lane(told: &mut impl Write, lane: Lane) -> io::Result<()> {
    let numbers = [
        u64::from(lane.settings.told),
        lane.settings.parity as u64,
        lane.settings.depth as u64,
        u64::from(lane.locked),
        u64::from(lane.lost),
        u64::from(lane.hunting.a),
        u64::from(lane.hunting.b),
        u64::from(lane.hunting.c),
        u64::from(lane.hunting.d),
        lane.counts.group as u64,
        lane.counts.marker as u64,
        lane.counts.word as u64,
        lane.counts.handed as u64,
        u64::from(lane.frame.opened),
        lane.frame.raw as u64,
        lane.frame.stored as u64,
        lane.frame.place as u64,
    ];
    cases::print_all(told, &numbers)
}
