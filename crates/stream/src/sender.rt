//! The sender's stream: begun with one flag, and packet after packet appended.
ghost use Rattle.std.specs.Prelude.{◌≡◌, [], ◌∷◌};
ghost use Rattle.base.specs.Written.{as_written, outcome, write};
ghost use Rattle.packet_spec.specs.Contents.{packet_of, plain_packet};
ghost use Rattle.packet_spec.specs.Escape.{flag};
ghost use Rattle.stream.specs.Sender.{appending};

use base::{Refusal, Written};
use packet::Packet;

/// Begins a stream: one flag.
pub fn begin(out: &mut [u8]) -> Written
    ensures { outcome (as_written result) out.new ≡ write (flag ∷ []) out.old }
{
    if out.is_empty() {
        return Err(Refusal::Output);
    }
    out[0] = Packet::FLAG;
    Ok(1)
}

// The packet's parts stay apart, here as in `packet::write_as`: both are public, and so their parameters may not change.
/// Appends a packet of either format to a stream, which is the first `at` bytes of the output.
pub fn append_as(
    out: &mut [u8],
    at: usize,
    format: u8,
    number: u8,
    key: &[u8],
    port: u16,
    sequence: u16,
    payload: &[u8],
) -> Written
    ensures { outcome (as_written result) out.new ≡
        appending at (packet_of format number key.now port sequence payload.now) out.old }
{
    let from = at.min(out.len());
    packet::write_as(
        format,
        number,
        key,
        port,
        sequence,
        payload,
        &mut out[from..],
    )
}

/// Appends a packet of format 0x21.
pub fn append(out: &mut [u8], at: usize, port: u16, sequence: u16, payload: &[u8]) -> Written
    ensures { outcome (as_written result) out.new ≡ appending at (plain_packet port sequence payload.now) out.old }
{
    append_as(
        out,
        at,
        Packet::PLAIN_FORMAT,
        0,
        &payload[..0],
        port,
        sequence,
        payload,
    )
}
