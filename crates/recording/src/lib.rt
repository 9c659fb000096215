//! A recording's bytes taken apart and heard: one answer a call, or its packets alone, one a call; any cutting.
#![tactic(auto)]

mod found;
mod reader;
mod spot;

pub use reader::{Hearing, NextPacket, RecordingReader};
