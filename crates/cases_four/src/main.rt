//! Answers cases of fixed sub-channels, received. The receiver of four, its cells and its buffers are carried over from case to case.
//!
//! crates/cases has the form of a case; its number holds three of 16 bits, the first one lowest. An answer: what is told.
//! Asked for (hearing.rt): n all anew, buffers filled with 0xA5; c a sub-channel configured (its number, R, depth); h a piece handed in until
//! more is wanted (its number, how much of its receive buffer and of its word buffer is lent); x its numbers set; v its numbers, its two
//! buffers, and its cells, as many as there is room for.
#![tactic(auto)]

mod hearing;

use cases::{Case, Serve};
use hearing::Four;
use std::io;
use std::io::{Read, Write};

// A receiver of four, and the memory of a case's bytes.
#[derive(Drop)]
struct Server {
    four: Four,
    space: [u8; 65536],
}

fn main(rt: HostRuntime) -> io::Result<()> {
    let mut server = Server {
        four: Four::fresh(),
        space: [0; 65536],
    };
    cases::serve_all(&rt, &mut server)
}

impl Serve for Server {
    // What is told of a case is its whole answer: no output follows, as `cases::answer_all` would write it.
    fn serve(&mut self, input: &mut impl Read, told: &mut impl Write) -> io::Result<bool> {
        let Some(case) = cases::read(input, &mut self.space)? else {
            return Ok(false);
        };
        answer(told, case, &mut self.four)?;
        Ok(true)
    }
}

// Writes the answer to one case.
fn answer(told: &mut impl Write, case: Case, four: &mut Four) -> io::Result<()> {
    match case.asked {
        b'n' => four.begin(),
        b'c' => four.configure(told, case.number)?,
        b'h' => four.hear(told, case.number, case.given)?,
        b'x' => four.set(case.number, case.given),
        b'v' => four.view(told, case.number, case.room)?,
        _ => {}
    }
    Ok(())
}
