//! Hunting: bytes one by one until the last four are the marker.
ghost use Rattle.std.specs.Prelude.{◌≡◌};
ghost use Rattle.channel.specs.Private.{shifts, hunted};

use channel_spec::Hunting;

// What hunting finds.
#[derive(Clone, Copy)]
pub(crate) struct Found {
    // Where the marker is found, the bytes taken, its last one among them; else all are.
    pub taken: Option<usize>,
    pub hunting: Hunting,
}

// All of some bytes more.
pub(crate) fn shifted(last: Hunting, bytes: &[u8]) -> Hunting
    ensures { result ≡ shifts last bytes.now }
{
    let mut next = last;
    for &byte in bytes {
        next = next.shift(byte);
    }
    next
}

// Bytes up to the marker, or all of them. On its own, since its loop has too few registers where it is laid into the call.
#[inline(never)]
pub(crate) fn hunt(last: Hunting, piece: &[u8]) -> Found
    ensures { result ≡ hunted last piece.now }
{
    let mut hunting = last;
    for (i, &byte) in piece.iter().enumerate() {
        hunting = hunting.shift(byte);
        if hunting.at_marker() {
            return Found {
                taken: Some(i + 1),
                hunting,
            };
        }
    }
    Found {
        taken: None,
        hunting,
    }
}
