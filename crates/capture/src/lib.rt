//! Captures for the usual network viewer: written record after record, and read, at most one answer a call.
#![tactic(auto)]

mod entry;
mod reader;
mod writer;

pub use entry::packed;
pub use reader::{CaptureReader, Read};
pub use writer::{begin, enter};
