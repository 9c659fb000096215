//! Answers cases of the interleaver, and of a fixed sub-channel's sender. The sender's and the receiving side's states are carried over from case to
//! case.
//!
//! crates/cases has the form of a case and of an answer; a number is told. Asked for: N fresh states; I bytes pushed at the depth that the number
//! says; Z the closing push; J received bytes taken in; X both places set to the number, and whether the first pass is over to the byte that follows;
//! s a whole stream sent, g the next group of one, with the sender's state, and q how many groups one of so many bytes has, R and depth in the
//! number's low two 16 bits; p a sub-channel of four configured (its number, R, depth in the number's low three), w a whole stream sent on the one that
//! the number says (four.rt); V the place of the sender (number 0) or of the receiving side (1), with the cells in the output and, of the latter,
//! whether its first pass is over behind them.
#![tactic(auto)]

mod four;

use cases::{Answer, Case};
use interleaver::{Back, Matrix, Pulled, Pushed};
use std::io;
use std::io::Write;

// Both sides.
#[derive(Clone, Copy)]
struct Sides {
    matrix: Matrix,
    back: Back,
}

fn main(rt: HostRuntime) -> io::Result<()> {
    let mut sides = Sides::fresh();
    cases::answer_all(&rt, &mut sides)
}

impl Answer for Sides {
    fn answer(&mut self, told: &mut impl Write, case: Case, out: &mut [u8]) -> io::Result<()> {
        let number = self.tell(told, case, out)?;
        cases::print(told, number)
    }
}

impl Sides {
    fn fresh() -> Self {
        Sides {
            matrix: interleaver::fresh(),
            back: interleaver::fresh_back(),
        }
    }

    // The number that a case is answered by.
    fn tell(&mut self, told: &mut impl Write, case: Case, out: &mut [u8]) -> io::Result<u64> {
        let number = case.number;
        let given = case.given;
        match case.asked {
            b'g' => self.send_group(told, number, given, out),
            b'p' => four::configure(told, number, given),
            b's' | b'q' | b'w' => Ok(tell_sent(case, out)),
            _ => Ok(self.tell_one(case, out)),
        }
    }

    // A case of the two states alone.
    fn tell_one(&mut self, case: Case, out: &mut [u8]) -> u64 {
        let depth = case.number as usize;
        match case.asked {
            b'N' => {
                *self = Sides::fresh();
                0
            }
            b'I' => self.pushed(interleaver::push(self.matrix, depth, case.given, out)),
            b'Z' => self.pushed(interleaver::close(self.matrix, depth, out)),
            b'J' => self.pulled(interleaver::pull(self.back, depth, case.given, out)),
            b'X' => {
                self.place(depth, case.given);
                0
            }
            b'V' => self.show(case.number, out),
            _ => 0,
        }
    }

    fn pushed(&mut self, p: Pushed) -> u64 {
        self.matrix = p.matrix;
        cases::written(p.written)
    }

    fn pulled(&mut self, p: Pulled) -> u64 {
        self.back = p.back;
        cases::written(p.written)
    }

    // The next group; the bytes taken are told before it.
    fn send_group(
        &mut self,
        told: &mut impl Write,
        number: u64,
        bytes: &[u8],
        out: &mut [u8],
    ) -> io::Result<u64> {
        let sent = subchannel_sender::send_group(
            cases::first(number),
            cases::second(number),
            self.matrix,
            bytes,
            out,
        );
        self.matrix = sent.matrix;
        cases::print(told, sent.taken as u64)?;
        Ok(cases::written(sent.written))
    }

    // The same cells at another place, on both sides.
    fn place(&mut self, place: usize, bytes: &[u8]) {
        self.matrix.place = place;
        self.back.matrix.place = place;
        self.back.again = bytes.first().is_some_and(|b| *b != 0);
    }

    // The cells of a side, and its place.
    fn show(&self, number: u64, out: &mut [u8]) -> u64 {
        if number == 0 {
            return show_cells(self.matrix, out);
        }
        out.fill(u8::from(self.back.again));
        show_cells(self.back.matrix, out)
    }
}

// A case of a whole stream, or of the sender of four: both states stay.
fn tell_sent(case: Case, out: &mut [u8]) -> u64 {
    let parity = cases::first(case.number);
    let depth = cases::second(case.number);
    let written = match case.asked {
        b's' => subchannel_sender::send(parity, depth, case.given, out),
        b'q' => subchannel_sender::count(parity, depth, cases::number_at(case.given, 0) as usize),
        _ => four::send(case.number, case.given, out),
    };
    cases::written(written)
}

fn show_cells(matrix: Matrix, out: &mut [u8]) -> u64 {
    base::copy(&matrix.cells, out);
    matrix.place as u64
}
