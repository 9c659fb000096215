//! The sender: a stream of any length, group by group.
ghost use Rattle.std.specs.Prelude.{◌≤◌, length, IfOk, IfSome};

use console::Speak;
use interleaver::Matrix;
use std::io;
use std::io::Read;
use subchannel::Settings;
use subchannel_sender::Group;

// A sender at its settings, which are no lengths of the output, and the memory of a group.
#[derive(Drop)]
struct Sending {
    parity: usize,
    depth: usize,
    matrix: Matrix,
    out: [u8; Group::LENGTH],
}

// Bytes of a stream that are held, at most.
const HOLD: usize = 4096;

// Bytes of a stream that fill a group.
fn four_messages(parity: usize) -> usize {
    Group::WORDS * (Group::WORD - parity.min(Settings::PARITY))
}

// Reads behind the bytes that are held, until so many are: how many are held then, if the stream has not ended.
fn read_on(rt: &impl Input, hold: &mut [u8], have: usize, want: usize) -> io::Result<Option<usize>>
    requires { (have ≤ want) × (want ≤ length hold.old) }
    ensures { IfOk result (λ held. IfSome held (λ n. (have ≤ n) × (n ≤ want))) }
{
    let n = rt.reader().read(&mut hold[have..want])?;
    if n == 0 {
        return Ok(None);
    }
    Ok(Some(console::onward(have, n, want)))
}

// The sender: a group whenever its bytes are in. They gather over several reads, so not by console::each_piece.
pub fn send_all(rt: &(impl Input + Print + Speak), parity: usize, depth: usize) -> io::Result<()> {
    let mut sending = Sending {
        parity,
        depth,
        matrix: interleaver::fresh(),
        out: [0; Group::LENGTH],
    };
    let mut hold = [0u8; HOLD];
    let want = four_messages(parity).min(HOLD);
    let mut have = 0;
    for reads in 0..u64::MAX {
        let Ok(read) = read_on(rt, &mut hold, have, want) else {
            crate::say_unread(rt);
            return Ok(());
        };
        let Some(held) = read else {
            return sending.finish(rt, &hold[..have]);
        };
        if reads == 0 {
            hint(rt, &hold[..held]);
        }
        have = held;
        if have == want {
            if sending.send(rt, &hold[..want])?.is_none() {
                return Ok(());
            }
            have = 0;
        }
    }
    Ok(())
}

// The first bytes read: a plain stream begins with no marker. Blocks are sent as they are all the same, and the receiver will not read them as such.
fn hint(rt: &impl Speak, begin: &[u8]) {
    if begin.starts_with(&Group::MARKER) {
        console::say(
            rt,
            b"fixed: hint: begins as marked blocks do, as the office sends them; a plain stream is sent here\n",
        );
    }
}

impl Sending {
    // The groups behind the last whole one: what is left of the stream, and the closing push.
    fn finish(&mut self, rt: &(impl Print + Speak), rest: &[u8]) -> io::Result<()> {
        match subchannel_sender::count(self.parity, self.depth, rest.len()) {
            Ok(groups) => self.send_last(rt, groups, rest),
            Err(refusal) => {
                crate::say_refused(rt, refusal);
                Ok(())
            }
        }
    }

    fn send_last(
        &mut self,
        rt: &(impl Print + Speak),
        groups: usize,
        rest: &[u8],
    ) -> io::Result<()> {
        let mut left = rest;
        for _ in 0..groups {
            let Some(taken) = self.send(rt, left)? else {
                return Ok(());
            };
            left = &left[console::onward(0, taken, left.len())..];
        }
        Ok(())
    }

    // One group of a stream, to standard output: how many bytes of it were taken, or it was said why nothing was sent.
    fn send(&mut self, rt: &(impl Print + Speak), stream: &[u8]) -> io::Result<Option<usize>> {
        let sent = subchannel_sender::send_group(
            self.parity,
            self.depth,
            self.matrix,
            stream,
            &mut self.out,
        );
        self.matrix = sent.matrix;
        let is_out = crate::put(rt, sent.written, &self.out)?;
        Ok(is_out.then_some(sent.taken))
    }
}
