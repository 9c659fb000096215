//! What a packet's sequence number is to the last one of its port (request W1), a small table of ports, and the laws of both; a range of ports.
//! Of code the types that it names, and the range's two functions; `ports` keeps such tables. Read specs/.
#![tactic(auto)]

ghost use Rattle.std.specs.Prelude.{◌≡◌};
ghost use Rattle.ports_spec.specs.Range.{every_port, inside};

/// A place of the table.
// No `Option` of what is held: `without` frees a place and keeps what stands in it, and callers hand in free places with any numbers.
#[derive(Clone, Copy)]
pub struct Entry {
    pub held: bool,
    pub port: u16,
    pub last: u16,
}

/// What a delivered packet is to its port.
#[derive(Clone, Copy)]
pub enum Noted {
    First,
    InOrder,
    Repeated,
    /// So many packets are missing before it.
    Missing(u16),
    Late,
    /// Refused, by this number of the paper.
    // Not a `Refusal`: `missed::print_noted` and `board_lines::Piece::lead` print whatever number a caller hands in.
    Refused(u8),
}

/// Ports from the first to the last; none where the first is greater.
#[derive(Clone, Copy)]
pub struct Range {
    pub first: u16,
    pub last: u16,
}

impl Range {
    /// Every port.
    pub fn all() -> Self
        ensures { result ≡ every_port }
    {
        Range {
            first: 0,
            last: 0xFFFF,
        }
    }

    /// Whether a port is one of them.
    pub fn has(self, port: u16) -> bool
        ensures { result ≡ inside self port }
    {
        (self.first..=self.last).contains(&port)
    }
}
