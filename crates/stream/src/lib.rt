//! The plain stream: the sender's calls, and the frame reader, at most one answer a call.
#![tactic(auto)]

mod frame;
mod sender;

pub use frame::{FrameReader, Read, key, payload};
pub use sender::{append, append_as, begin};
