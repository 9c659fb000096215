//! The opportunistic channel's sender: blocks, each the marker, a message and its parity, in one go.
#![tactic(auto)]

ghost use Rattle.std.specs.Prelude.{◌≡◌, ◌+◌, ◌*◌, ◌/◌, ◌≤◌, ◌<◌, ◌++◌, length, drop, replicate};
ghost use Rattle.base.specs.Written.{as_written, outcome, copied};
ghost use Rattle.packet_spec.specs.Escape.{flag};
ghost use Rattle.channel_spec.specs.Sender.{marker, message_bytes, block_bytes, word_of, fillers, marking, sending};

use base::{Refusal, Written};
use channel_spec::{Block, Hunting};
use stream::FrameReader;

// Writes one block: the marker, the message and its parity.
fn put_block(message: &[u8], out: &mut [u8])
    requires { (length message.now ≡ message_bytes) × (block_bytes ≤ length out.old) }
    ensures { out.new ≡ (marker ++ word_of message.now) ++ drop block_bytes out.old }
{
    out[..4].copy_from_slice(&Hunting::MARKER);
    out[4..Block::PARITY_AT].copy_from_slice(message);
    // Never refused: the message has its length, and there is room.
    let _ = parity::make(Block::PARITY, message, &mut out[Block::PARITY_AT..]);
}

/// Marks one block of 223 bytes: the marker, the message and its parity.
pub fn mark(message: &[u8], out: &mut [u8]) -> Written
    ensures { outcome (as_written result) out.new ≡ marking message.now out.old }
{
    if message.len() != Block::MESSAGE {
        return Err(Refusal::Length);
    }
    if out.len() < Block::LENGTH {
        return Err(Refusal::Output);
    }
    put_block(message, out);
    Ok(Block::LENGTH)
}

// Writes the block of the next 223 bytes, or of those that are left and flags behind them.
fn put_next(stream: &[u8], out: &mut [u8])
    requires { block_bytes ≤ length out.old }
    ensures { out.new ≡ (marker ++ word_of (copied stream.now (replicate message_bytes flag))) ++ drop block_bytes out.old }
{
    let mut message = [FrameReader::FLAG; Block::MESSAGE];
    base::copy(stream, &mut message);
    // Never refused: the message has its length, and there is room. By `mark`, so that one operation makes every marked byte.
    let _ = mark(&message, out);
}

// How many blocks so many bytes fill.
fn blocks_of(n: usize) -> usize
    ensures { (result ≡ (n + fillers n) / message_bytes) × (message_bytes * result < n + message_bytes) }
{
    n.div_ceil(Block::MESSAGE)
}

/// Sends a whole stream.
pub fn send(stream: &[u8], out: &mut [u8]) -> Written
    ensures { outcome (as_written result) out.new ≡ sending stream.now out.old }
{
    let blocks = blocks_of(stream.len());
    if out.len() < Block::LENGTH * blocks {
        return Err(Refusal::Output);
    }
    // By their numbers and not by `chunks_mut`: of what stands in such parts a proof knows nothing once they are given back.
    for i in 0..blocks {
        put_next(&stream[Block::MESSAGE * i..], &mut out[Block::LENGTH * i..]);
    }
    Ok(Block::LENGTH * blocks)
}
