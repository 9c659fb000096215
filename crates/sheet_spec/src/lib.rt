//! A line of the monthly reception sheet, as it is kept. What the sheet says is defined in specs/.
#![tactic(auto)]

/// A port's numbers.
#[derive(Clone, Copy)]
pub struct Tally {
    /// Packets delivered.
    pub delivered: u64,
    pub repeated: u64,
    pub late: u64,
    pub missing: u64,
    /// The missing, and the packets in order, first or after a gap.
    pub total: u64,
}

/// A port's line, and what the recording that is being counted has said of the port.
#[derive(Clone, Copy)]
pub struct Row {
    pub port: u16,
    pub tally: Tally,
    // No `Option` of the number: a sheet that callers hand in may have any of both, and each row of the laws has both (`row`, `line`).
    /// This recording delivered a packet of it.
    pub heard: bool,
    /// Its last sequence number then.
    pub last: u16,
}
