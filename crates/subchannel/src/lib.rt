//! The receiver of one fixed sub-channel, with its parity, its depth and its own bytes, at most one answer a call.
#![tactic(auto)]

mod cells;
mod counts;
mod fill;
mod lane;
mod sub;
mod word;

pub use counts::Counts;
pub use lane::Lane;
pub use sub::{Hearing, Sub, Telling};
pub use subchannel_spec::Settings;
