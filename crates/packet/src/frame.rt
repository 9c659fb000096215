//! A closed frame, judged.
ghost use Rattle.std.specs.Prelude.{◌≡◌, ◌+◌, ◌≤◌, ◌<◌, length};
ghost use Rattle.packet_spec.specs.Contents.{key_sized, pair, pair_at, payload_at, unpacked};
ghost use Rattle.packet_spec.specs.Frame.{judged, judge_packet, key_fits, judge_body, judge_contents, closed, judging};
ghost use Rattle.packet.specs.Private.{as_judged};

use crate::{escape, port};
use base::Refusal;
use packet_spec::{Delivery, Escapes, Judged};

/// The numbers of packets and frames.
#[derive(Clone, Copy)]
pub struct Packet;

impl Packet {
    /// The flag, which stands between frames.
    pub const FLAG: u8 = 0x7E;
    /// The format byte of a packet that everybody may read.
    pub const PLAIN_FORMAT: u8 = 0x21;
    /// .. and of one for subscribers: it carries a key.
    pub const KEY_FORMAT: u8 = 0x26;
    // Key bytes of the latter, at least.
    const KEY_LEAST: usize = 2;
    // .. and at most.
    const KEY_MOST: usize = 32;
    /// Where its key stands: behind format byte, key length and key number.
    pub const KEY_AT: usize = 3;
    /// Bytes behind it, at least, before the check: port, sequence, one of payload.
    pub const REST_LEAST: usize = 5;
    /// Format byte to sequence, at most.
    pub const OPENING: usize = Self::KEY_AT + Self::KEY_MOST + 4;
    /// Raw bytes of a packet of format 0x21, at most.
    pub const PLAIN_RAW: usize = 8205;
    /// Raw bytes of a frame, at most, in either format.
    pub const RAW: usize = 8272;
    /// The raw count that means "over".
    pub const OVER: usize = Self::RAW + 1;
    /// Bytes of the payload as escaped, at most.
    pub const PAYLOAD: usize = 8192;
}

/// Two bytes as a number, low first.
pub fn pair(low: u8, high: u8) -> u16
    ensures { result ≡ pair low high }
{
    u16::from_le_bytes([low, high])
}

// The number at i.
fn pair_at(cs: &[u8], i: usize) -> u16
    requires { i + 1 < length cs.now }
    ensures { result ≡ pair_at cs.now i }
{
    pair(cs[i], cs[i + 1])
}

// Whether so many key bytes may stand in format 0x26.
pub fn key_sized(k: usize) -> bool
    ensures { result ≡ key_sized k }
{
    Packet::KEY_LEAST <= k && k <= Packet::KEY_MOST
}

// Whether the key of format byte to last payload byte has such a length, and enough bytes behind it.
fn key_fits(body: &[u8]) -> bool
    requires { 2 ≤ length body.now }
    ensures { result ≡ key_fits body.now }
{
    let k = usize::from(body[1]);
    key_sized(k) && Packet::KEY_AT + k + Packet::REST_LEAST <= body.len()
}

// Judges port, sequence and payload, which stand behind the head.
fn judge_packet(format: u8, number: u8, key: &[u8], rest: &[u8]) -> Result<Delivery, Refusal>
    requires { (length key.now < 256) × (4 ≤ length rest.now) }
    ensures { as_judged result ≡ judged (judge_packet (unpacked format number key.now rest.now)) }
{
    let port = pair_at(rest, 0);
    if port::barred(port) {
        return Err(Refusal::Port);
    }
    if escape::longer(&rest[4..], Packet::PAYLOAD) {
        return Err(Refusal::Payload);
    }
    Ok(Delivery {
        format,
        number,
        key: key.len() as u8,
        port,
        sequence: pair_at(rest, 2),
        length: rest.len() - 4,
    })
}

// Judges format byte to last payload byte.
fn judge_body(body: &[u8]) -> Result<Delivery, Refusal>
    requires { 6 ≤ length body.now }
    ensures { as_judged result ≡ judged (judge_body body.now) }
{
    let format = body[0];
    match format {
        Packet::PLAIN_FORMAT => judge_packet(format, 0, &body[..0], &body[1..]),
        Packet::KEY_FORMAT if key_fits(body) => {
            let end = Packet::KEY_AT + usize::from(body[1]);
            judge_packet(format, body[2], &body[Packet::KEY_AT..end], &body[end..])
        }
        Packet::KEY_FORMAT => Err(Refusal::Key),
        _ => Err(Refusal::Format),
    }
}

// Judges contents.
fn judge_contents(cs: &[u8]) -> Result<Delivery, Refusal>
    ensures { as_judged result ≡ judged (judge_contents cs.now) }
{
    let n = cs.len();
    if n < 8 {
        return Err(Refusal::Short);
    }
    let end = n - 2;
    if fcs::fcs(&cs[..end]) != pair_at(cs, end) {
        return Err(Refusal::Check);
    }
    judge_body(&cs[..end])
}

// What contents are judged to be, as the answer to a frame.
fn told(contents: Result<Delivery, Refusal>) -> Judged
    ensures { result ≡ as_judged contents }
{
    match contents {
        Ok(delivery) => Judged::Packet(delivery),
        Err(refusal) => Judged::Refused(refusal as u8),
    }
}

// A frame of `raw` raw bytes, which `recv` holds from its start, is closed: escapes are undone in `recv`.
fn close(recv: &mut [u8], raw: usize) -> Judged
    ensures { (result ≡ judged (closed recv.old raw).told) × (recv.new ≡ (closed recv.old raw).recv) }
{
    if Packet::RAW < raw {
        return Judged::Refused(Refusal::Raw as u8);
    }
    let stored = raw.min(recv.len());
    match escape::scan(&recv[..stored]) {
        Escapes::Unfinished => Judged::Refused(Refusal::Unfinished as u8),
        Escapes::Wrong(place) => Judged::Broken(place),
        Escapes::Right => {
            let n = escape::undo_plain(&mut recv[..stored], 0, 0);
            told(judge_contents(&recv[..n]))
        }
    }
}

/// Where the payload of a packet with so many key bytes stands in the receive buffer.
pub fn payload_at(key: u8) -> usize
    ensures { result ≡ payload_at key }
{
    if key == 0 {
        5
    } else {
        Packet::KEY_AT + usize::from(key) + 4
    }
}

/// Judges a closed frame of `raw` raw bytes, which `recv` holds from its start. Escapes are undone in `recv`.
pub fn judge(recv: &mut [u8], raw: usize) -> Judged
    ensures { (result ≡ judged (judging recv.old raw).told) × (recv.new ≡ (judging recv.old raw).recv) }
{
    if Packet::OVER < raw {
        return Judged::Refused(Refusal::State as u8);
    }
    if recv.len() < Packet::RAW {
        return Judged::Refused(Refusal::Buffer as u8);
    }
    close(recv, raw)
}
