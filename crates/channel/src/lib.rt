//! The opportunistic channel's receiver, at most one answer a call.
#![tactic(auto)]

mod answer;
mod hunting;
mod locked;
mod receiver;
mod word;

pub use answer::Hearing;
pub use channel_spec::{Answer, Block, Condition, Hunting};
pub use locked::Locked;
pub use receiver::Receiver;
