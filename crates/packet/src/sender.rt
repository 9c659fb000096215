//! A packet, written.
ghost use Rattle.std.specs.Prelude.{◌≡◌, [], ◌++◌, ◌+◌, ◌≤◌, length};
ghost use Rattle.base.specs.Private.{Laid};
ghost use Rattle.base.specs.Written.{as_written, outcome, write};
ghost use Rattle.fcs.specs.Fcs.{fcs};
ghost use Rattle.packet_spec.specs.Contents.{packet_of, plain_packet, key_most, key_at, payload_limit, head, opening, two};
ghost use Rattle.packet_spec.specs.Escape.{escape};
ghost use Rattle.packet_spec.specs.Sender.{flagged, frame_of, head_fits, writing};
ghost use Rattle.packet.specs.Private.{opening_most};

use crate::frame::{Packet, key_sized};
use crate::{escape, port};
use base::{Refusal, Written};
use fcs::Register;

// A number as two bytes, low first.
fn two(n: u16) -> [u8; 2]
    ensures { result ≡ two n }
{
    n.to_le_bytes()
}

// Whether key and key number fit the format.
fn head_fits(format: u8, number: u8, key: &[u8]) -> bool
    ensures { result ≡ head_fits format number (length key.now) }
{
    match format {
        Packet::PLAIN_FORMAT => key.is_empty() && number == 0,
        Packet::KEY_FORMAT => key_sized(key.len()),
        _ => false,
    }
}

// Stores a number as two bytes, low first; the place behind.
fn put_two(out: &mut [u8], at: usize, n: u16) -> usize
    requires { at + 2 ≤ length out.old }
    ensures { Laid out.old at (two n) out.new result }
{
    let [low, high] = two(n);
    out[at] = low;
    out[at + 1] = high;
    at + 2
}

// The check of opening and payload, one behind the other.
fn check_of(opening: &[u8], payload: &[u8]) -> u16
    ensures { result ≡ fcs (opening.now ++ payload.now) }
{
    Register::fresh().feed(opening).feed(payload).check()
}

// Stores a frame of three parts and its flag, where there is room.
fn put_frame(opening: &[u8], payload: &[u8], tail: &[u8; 2], out: &mut [u8]) -> Written
    requires { (length opening.now ≤ opening_most) × (length (escape payload.now) ≤ payload_limit) }
    ensures { outcome (as_written result) out.new ≡ write (flagged (opening.now ++ payload.now ++ tail.now)) out.old }
{
    let n = escape::escaped_len(opening) + escape::escaped_len(payload) + escape::escaped_len(tail);
    if out.len() <= n {
        return Err(Refusal::Output);
    }
    let a = escape::put(out, 0, opening);
    let b = escape::put(out, a, payload);
    let c = escape::put(out, b, tail);
    out[c] = Packet::FLAG;
    Ok(c + 1)
}

// What a packet is made of, once the tests of `write_as` are passed.
#[derive(Clone, Copy)]
struct Parts<'a> {
    format: u8,
    number: u8,
    key: &'a [u8],
    port: u16,
    sequence: u16,
    payload: &'a [u8],
    ghost few: { length key.now ≤ key_most },
    ghost short: { length (escape payload.now) ≤ payload_limit },
}

impl Parts<'_> {
    // Stores format byte and, in format 0x26, key length, key number and key; how many bytes.
    fn put_head(&self, out: &mut [u8]) -> usize
        requires { key_at + key_most ≤ length out.old }
        ensures { Laid out.old 0 (head self.now.format self.now.number self.now.key.now) out.new result }
    {
        out[0] = self.format;
        if self.format != Packet::KEY_FORMAT {
            return 1;
        }
        let k = self.key.len();
        out[1] = k as u8;
        out[2] = self.number;
        base::copy(self.key, &mut out[Packet::KEY_AT..]);
        Packet::KEY_AT + k
    }

    // Stores format byte to sequence; how many bytes.
    fn put_opening(&self, out: &mut [u8]) -> usize
        requires { opening_most ≤ length out.old }
        ensures { Laid out.old 0
            (opening (packet_of self.now.format self.now.number self.now.key.now self.now.port self.now.sequence [])) out.new result }
    {
        let a = self.put_head(out);
        let b = put_two(out, a, self.port);
        put_two(out, b, self.sequence)
    }

    // Stores the packet's frame, where there is room.
    fn put(&self, out: &mut [u8]) -> Written
        ensures { outcome (as_written result) out.new ≡
            write (frame_of (packet_of self.now.format self.now.number self.now.key.now self.now.port self.now.sequence self.now.payload.now)) out.old }
    {
        let mut opening = [0u8; Packet::OPENING];
        let n = self.put_opening(&mut opening);
        let tail = two(check_of(&opening[..n], self.payload));
        put_frame(&opening[..n], self.payload, &tail, out)
    }
}

/// Writes a packet of either format: its escaped contents, and one flag behind them.
pub fn write_as(
    format: u8,
    number: u8,
    key: &[u8],
    port: u16,
    sequence: u16,
    payload: &[u8],
    out: &mut [u8],
) -> Written
    ensures { outcome (as_written result) out.new ≡
        writing (packet_of format number key.now port sequence payload.now) out.old }
{
    if payload.is_empty() {
        return Err(Refusal::Empty);
    }
    if Packet::PAYLOAD < escape::escaped_len(payload) {
        return Err(Refusal::Long);
    }
    if port::barred(port) {
        return Err(Refusal::Barred);
    }
    if !head_fits(format, number, key) {
        return Err(Refusal::SentKey);
    }
    let parts = Parts {
        format,
        number,
        key,
        port,
        sequence,
        payload,
    };
    parts.put(out)
}

/// Writes a packet of format 0x21.
pub fn write(port: u16, sequence: u16, payload: &[u8], out: &mut [u8]) -> Written
    ensures { outcome (as_written result) out.new ≡ writing (plain_packet port sequence payload.now) out.old }
{
    write_as(
        Packet::PLAIN_FORMAT,
        0,
        &payload[..0],
        port,
        sequence,
        payload,
        out,
    )
}
