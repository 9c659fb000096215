//! What the manager reads: bytes in, the board's lines out, any cutting of the input and any room for the output.
#![tactic(auto)]

mod owed;
mod readout;

pub use owed::Owed;
pub use readout::{Readout, Took, Wants};
