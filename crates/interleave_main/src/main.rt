//! The interleaver as a program, `interleave push|pull DEPTH`: bytes from standard input, through the cells, to standard output; `push` is the
//! sender and ends with the closing push, `pull` the receiving side. Each piece goes on as it comes. Where something fails it says so on
//! standard error and stops.
#![tactic(auto)]

use base::Written;
use console::{Next, PIECE, Speak, TakePieces, say};
use interleaver::{Back, Matrix};
use std::env::Env;
use std::io;
use std::process::ExitCode;

// The sender, or the receiving side.
#[derive(Clone, Copy)]
enum Side {
    Push(Matrix),
    Pull(Back),
}

// A side at its depth, which is no length of the output, and the memory that its calls are lent.
#[derive(Drop)]
struct Passing {
    depth: usize,
    side: Side,
    out: [u8; PIECE],
}

fn main(rt: HostRuntime) -> ExitCode {
    console::status(run(&rt))
}

// What the arguments ask for.
fn run(rt: &(impl Env + Input + Print + Speak)) -> io::Result<()> {
    match (asked_depth(rt), asked_side(rt)) {
        (Some(depth), Some(side)) if console::argument_count(rt) == 3 => pass_all(rt, depth, side),
        _ => {
            usage(rt);
            Ok(())
        }
    }
}

// The depth that the second argument says.
fn asked_depth(rt: &impl Env) -> Option<usize> {
    console::number(rt, 2, 2).filter(|depth| *depth <= 64)
}

// The side that the first argument says, before its first byte.
fn asked_side(rt: &impl Env) -> Option<Side> {
    if console::is_argument(rt, 1, b"push") {
        return Some(Side::Push(interleaver::fresh()));
    }
    if console::is_argument(rt, 1, b"pull") {
        return Some(Side::Pull(interleaver::fresh_back()));
    }
    None
}

fn usage(rt: &impl Speak) {
    say(
        rt,
        b"usage: interleave push|pull DEPTH <IN >OUT; a depth is a number from 0 to 64\n",
    );
}

// Pieces as they come, and what is behind the last.
fn pass_all(rt: &(impl Input + Print + Speak), depth: usize, side: Side) -> io::Result<()> {
    let mut passing = Passing {
        depth,
        side,
        out: [0; PIECE],
    };
    if console::each_piece(rt, b"interleave", &mut passing)? {
        passing.finish(rt)?;
    }
    Ok(())
}

impl TakePieces for Passing {
    // A piece in one call.
    fn take(&mut self, rt: &(impl Print + Speak), piece: &[u8]) -> io::Result<Next> {
        let written = self.pass(piece);
        if console::put(rt, b"interleave", written, &self.out)? {
            Ok(Next::More)
        } else {
            Ok(Next::Stop)
        }
    }
}

impl Passing {
    // A piece through the cells.
    fn pass(&mut self, piece: &[u8]) -> Written {
        match self.side {
            Side::Push(matrix) => {
                let pushed = interleaver::push(matrix, self.depth, piece, &mut self.out);
                self.side = Side::Push(pushed.matrix);
                pushed.written
            }
            Side::Pull(back) => {
                let pulled = interleaver::pull(back, self.depth, piece, &mut self.out);
                self.side = Side::Pull(pulled.back);
                pulled.written
            }
        }
    }

    // The sender's closing push; the receiving side has none.
    fn finish(&mut self, rt: &(impl Print + Speak)) -> io::Result<()> {
        if let Side::Push(matrix) = self.side {
            let closed = interleaver::close(matrix, self.depth, &mut self.out);
            console::put(rt, b"interleave", closed.written, &self.out)?;
        }
        Ok(())
    }
}
