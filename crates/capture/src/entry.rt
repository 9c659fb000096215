//! A packet's bytes, format byte to last payload byte: fetched behind a delivery, and judged.
ghost use Rattle.std.specs.Prelude.{◌≡◌, ◌≤◌, ◌<◌, length};
ghost use Rattle.packet_spec.specs.Contents.{unpacked};
ghost use Rattle.packet_spec.specs.Frame.{judged};
ghost use Rattle.capture_spec.specs.Meaning.{entry};
ghost use Rattle.capture.specs.Export.{packed_part};
ghost use Rattle.capture.specs.Private.{asked};

use base::{Refusal, Written};
use packet::{Delivery, Judged, Packet};

/// Format byte to last payload byte of a delivered packet, where they stand in the receive buffer; an empty part where that is too short.
pub fn packed(recv: &[u8], delivery: Delivery) -> &[u8]
    ensures { result.now ≡ packed_part delivery recv.now }
{
    let end = packet::payload_at(delivery.key).saturating_add(delivery.length);
    recv.get(..end).unwrap_or(&[])
}

// Asks the sender, with no room for its output: only that it misses for a packet that it would accept. The parts come one by one, as it takes them.
fn ask(format: u8, number: u8, key: &[u8], rest: &[u8]) -> Judged
    requires { (length key.now < 256) × (4 ≤ length rest.now) }
    ensures { result ≡ judged (asked (unpacked format number key.now rest.now)) }
{
    let port = packet::pair(rest[0], rest[1]);
    let sequence = packet::pair(rest[2], rest[3]);
    let mut nowhere = [0u8; 0];
    match packet::write_as(
        format,
        number,
        key,
        port,
        sequence,
        &rest[4..],
        &mut nowhere,
    ) {
        Ok(_) => Judged::Refused(Refusal::NoPacket as u8),
        // Not `Err(Refusal::Output)` and `Err(_)`: the latter arm is not known to have another refusal, so its proof does not close.
        Err(refusal) => match refusal {
            Refusal::Output => Judged::Packet(Delivery {
                format,
                number,
                key: key.len() as u8,
                port,
                sequence,
                length: rest.len() - 4,
            }),
            _ => Judged::Refused(Refusal::NoPacket as u8),
        },
    }
}

// Not one function with what judges a frame's contents (`judge_body` of `packet`): there the receiver judges, and each refusal has its number.
// What a record's bytes are: a packet that the sender would accept, or 62.
pub(crate) fn told(bytes: &[u8]) -> Judged
    ensures { result ≡ judged (entry bytes.now) }
{
    let n = bytes.len();
    if n < 6 {
        return Judged::Refused(Refusal::NoPacket as u8);
    }
    let format = bytes[0];
    match format {
        Packet::PLAIN_FORMAT => ask(format, 0, &bytes[..0], &bytes[1..]),
        Packet::KEY_FORMAT => {
            let end = Packet::KEY_AT + usize::from(bytes[1]);
            if n < end + Packet::REST_LEAST {
                return Judged::Refused(Refusal::NoPacket as u8);
            }
            ask(format, bytes[2], &bytes[Packet::KEY_AT..end], &bytes[end..])
        }
        _ => Judged::Refused(Refusal::NoPacket as u8),
    }
}
