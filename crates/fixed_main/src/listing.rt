//! The receiver: received bytes in, a line of each answer out, and the totals.
use base::Refusal;
use channel::Answer;
use console::{Next, Speak, TakePieces};
use listing_lines::{Line, Totals};
use packet::Judged;
use std::io;
use subchannel::Sub;

// A sub-channel that is being listed, what is counted of it, and the buffers that its calls are lent.
#[derive(Drop)]
struct Listing {
    sub: Sub,
    bytes: u64,
    totals: Totals,
    recv: [u8; Sub::RAW],
    word: [u8; Sub::WORD],
}

// The receiver: pieces as they come, and the totals behind the last.
pub fn list_all(rt: &(impl Input + Print + Speak), parity: usize, depth: usize) -> io::Result<()> {
    let mut listing = Listing {
        sub: Sub::told(parity, depth).sub,
        bytes: 0,
        totals: Totals::none(),
        recv: [0; Sub::RAW],
        word: [0; Sub::WORD],
    };
    let ended = console::each_piece(rt, b"fixed", &mut listing)?;
    if ended {
        listing.print_totals(rt)?;
    }
    Ok(())
}

impl TakePieces for Listing {
    // An answer's line is out before the next bytes are read.
    fn take(&mut self, rt: &(impl Print + Speak), piece: &[u8]) -> io::Result<Next> {
        let heard = self.sub.hear(&mut self.recv, &mut self.word, piece);
        self.sub = heard.sub;
        // No input of less than 2^64 bytes comes to the end of the numbers.
        self.bytes = self.bytes.saturating_add(heard.taken as u64);
        self.totals = self.totals.count(heard.answer);
        if !tell(rt, heard.answer)? {
            return Ok(Next::Stop);
        }
        match heard.answer {
            Answer::More => Ok(Next::More),
            Answer::Said(_) | Answer::Block(_) | Answer::LockLost => Ok(Next::Again(heard.taken)),
        }
    }
}

impl Listing {
    // The last line.
    fn print_totals(&self, rt: &(impl Print + Speak)) -> io::Result<()> {
        let mut text = [0u8; Line::LONGEST];
        let written = listing_lines::print_end(self.bytes, self.totals, &mut text);
        crate::put(rt, written, &text)?;
        Ok(())
    }
}

// The line of an answer, to standard output; whether its call was not refused.
fn tell(rt: &(impl Print + Speak), answer: Answer) -> io::Result<bool> {
    if is_refused(answer) {
        console::say(rt, b"fixed: a call was refused\n");
        return Ok(false);
    }
    let mut text = [0u8; Line::LONGEST];
    let written = listing_lines::print(answer, &mut text);
    crate::put(rt, written, &text)
}

// Whether a call was refused: no state of this program comes to that.
fn is_refused(answer: Answer) -> bool {
    match answer {
        Answer::Said(Judged::Refused(n)) => {
            matches!(Refusal::try_from(n), Ok(Refusal::State | Refusal::Buffer))
        }
        _ => false,
    }
}
