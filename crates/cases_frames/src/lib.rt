//! What the comparison programs share of frames (crates/cases has the rest): a frame's state and a delivery in the number of a case, and what is
//! told of a judged frame. Only programs stand on this crate.
#![tactic(auto)]

use base::Refusal;
use packet::{Delivery, Judged};
use std::io;
use std::io::Write;
use stream::FrameReader;

/// The frame state in the number of a case, with its place: above 31 bits whether the frame is open, then raw and stored count in 16 bits each.
pub fn frame(number: u64, place: usize) -> FrameReader {
    FrameReader {
        opened: number / 0x80000000 % 2 == 1,
        raw: cases::third(number),
        stored: (number / 0x1000000000000) as usize,
        place,
    }
}

/// The delivery in the number of a case: key length, format, and the payload's length above them.
pub fn delivery(number: u64) -> Delivery {
    Delivery {
        format: cases::low(number / 0x100),
        number: 0,
        key: cases::low(number),
        port: 0,
        sequence: 0,
        length: (number / 0x10000) as usize,
    }
}

/// A judged frame as a number. A packet: port, sequence, length, and 1 above them; a broken escape: its place above the number.
pub fn judged(j: Judged) -> u64 {
    match j {
        Judged::Packet(d) => packet(d),
        Judged::Refused(n) => cases::refused(n),
        Judged::Broken(place) => {
            cases::refused(Refusal::Escape as u8) | (place as u64 % 65536) << 32
        }
    }
}

fn packet(d: Delivery) -> u64 {
    let [a, b] = d.port.to_le_bytes();
    let [c, e] = d.sequence.to_le_bytes();
    let [f, g, h, ..] = d.length.to_le_bytes();
    u64::from_le_bytes([a, b, c, e, f, g, h, 1])
}

/// A packet's format, key number and key length as a number.
pub fn kind(d: Delivery) -> u64 {
    u64::from(u32::from_le_bytes([d.format, d.number, d.key, 0]))
}

/// Tells a judged frame: its number, and of a packet the kind, key and payload. False where the call was refused: by 10, 11 or 42.
pub fn said(told: &mut impl Write, j: Judged, recv: &[u8]) -> io::Result<bool> {
    cases::print(told, judged(j))?;
    match j {
        Judged::Packet(d) => {
            parts(told, d, recv)?;
            Ok(true)
        }
        Judged::Refused(n) => {
            let refusal = Refusal::try_from(n);
            Ok(!matches!(
                refusal,
                Ok(Refusal::State | Refusal::Buffer | Refusal::SubChannel)
            ))
        }
        Judged::Broken(_) => Ok(true),
    }
}

fn parts(told: &mut impl Write, d: Delivery, recv: &[u8]) -> io::Result<()> {
    cases::print(told, kind(d))?;
    told.write_all(stream::key(recv, d))?;
    told.write_all(stream::payload(recv, d))
}
