//! A recording taken apart: where it stands, and what is counted of it. What a listing prints is defined in specs/.
#![tactic(auto)]

/// What the next byte of a recording is.
#[derive(Clone, Copy)]
pub enum Place {
    /// The byte that says which stream it is.
    Mode,
    /// A mark's first byte; here a recording may end.
    Mark,
    /// A mark's second byte.
    Second,
    /// A length's low byte.
    Low,
    /// A length's high byte; its low one was this.
    High(u8),
    /// A stream byte, and so many more behind it in the record.
    Inside(u16),
    /// Anything: a wrong byte was met.
    Wrong,
}

#[derive(Clone, Copy)]
pub struct Spot {
    pub place: Place,
    /// Bytes of the recording, up to the first wrong one.
    pub offset: u64,
    /// Stream bytes among them.
    pub count: u64,
}

/// The total that an answer counts in.
// `Nothing` is a case and no `Option` is around the others: the definition has it so (`total_of`), and who counts matches one value.
#[derive(Clone, Copy)]
pub enum Total {
    Packets,
    Refusals,
    /// Blocks beyond repair.
    Damaged,
    Lost,
    /// None.
    Nothing,
}
