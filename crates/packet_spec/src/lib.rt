//! No code: what frames and packets are, the answers to them, and the laws of escaping, judging and the round trip. `packet` reads and
//! writes them. Read specs/.
#![tactic(auto)]

/// The classes of ports.
#[derive(Clone, Copy)]
pub enum Class {
    System,
    Applications,
    M,
    D,
    Future,
    /// May not be used.
    Barred,
}

/// What the escapes of raw bytes are.
// Three answers, as the definition has them (`scan`), and no `Option` of a fault around two: who closes a frame goes on by each of the three.
#[derive(Clone, Copy)]
pub enum Escapes {
    Right,
    /// The last raw byte is 7D.
    Unfinished,
    /// 7D is followed by something other than 5E and 5D, first at this place.
    Wrong(usize),
}

/// A packet as it is told of; its key and its payload are parts of the receive buffer.
#[derive(Clone, Copy)]
pub struct Delivery {
    pub format: u8,
    /// The key's number; 0 in format 0x21.
    pub number: u8,
    /// Bytes of the key; 0 in format 0x21.
    pub key: u8,
    pub port: u16,
    pub sequence: u16,
    /// Bytes of the payload.
    pub length: usize,
}

/// What a closed frame is judged to be.
#[derive(Clone, Copy)]
pub enum Judged {
    Packet(Delivery),
    /// Refused, by this number of the paper; callers hand such answers in, so it may be any.
    Refused(u8),
    /// Refused with 3: the raw byte at this place, counted from 0, is the first that stands behind 7D and is neither 5E nor 5D.
    Broken(usize),
}
