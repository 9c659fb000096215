//! A capture, written.
ghost use Rattle.std.specs.Prelude.{◌≡◌, ◌+◌, ◌≤◌, ◌<◌, ◌++◌, length, drop};
ghost use Rattle.base.specs.Written.{as_written, outcome, write};
ghost use Rattle.capture_spec.specs.File.{header, record_of};
ghost use Rattle.capture.specs.Export.{entering};
ghost use Rattle.capture.specs.Private.{head_of};

use crate::entry;
use crate::reader::CaptureReader;
use base::{Refusal, Written};
use packet::Judged;

// What stands before the first record.
pub(crate) const HEADER: [u8; CaptureReader::HEADER] = [
    0xD4, 0xC3, 0xB2, 0xA1, 2, 0, 4, 0, 0, 0, 0, 0, 0, 0, 0, 0, 0xFF, 0xFF, 0, 0, 147, 0, 0, 0,
];

/// Writes what stands before the first record.
pub fn begin(out: &mut [u8]) -> Written
    ensures { outcome (as_written result) out.new ≡ write header out.old }
{
    if out.len() < CaptureReader::HEADER {
        return Err(Refusal::Output);
    }
    base::copy(&HEADER, out);
    Ok(CaptureReader::HEADER)
}

// The sixteen bytes before a record's own.
fn head(number: u32, size: u32) -> [u8; CaptureReader::HEAD]
    ensures { result ≡ head_of number size }
{
    let [a, b, c, d] = number.to_le_bytes();
    let [e, f, g, h] = size.to_le_bytes();
    [a, b, c, d, 0, 0, 0, 0, e, f, g, h, e, f, g, h]
}

// Stores a record: its head, and the bytes behind it.
fn put(number: u32, bytes: &[u8], out: &mut [u8])
    requires { (length bytes.now < 4294967296) × (length bytes.now + 16 ≤ length out.old) }
    ensures { out.new ≡ record_of number bytes.now ++ drop (length bytes.now + 16) out.old }
{
    let head = head(number, bytes.len() as u32);
    base::copy(&head, out);
    base::copy(bytes, &mut out[CaptureReader::HEAD..]);
}

/// Writes the record of the packet with this number from 0, whose bytes are these, format byte to last payload byte.
pub fn enter(number: u32, packed: &[u8], out: &mut [u8]) -> Written
    ensures { outcome (as_written result) out.new ≡ entering number packed.now out.old }
{
    let Judged::Packet(_) = entry::told(packed) else {
        return Err(Refusal::NoPacket);
    };
    let n = packed.len() + CaptureReader::HEAD;
    if out.len() < n {
        return Err(Refusal::Output);
    }
    put(number, packed, out);
    Ok(n)
}
