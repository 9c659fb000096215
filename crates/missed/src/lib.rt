//! Which bids a recording misses: its bytes in, in any pieces, and a line out for each packet of a range of ports.
#![tactic(auto)]

mod line;
mod notes;

pub use line::print_noted;
pub use notes::{Notes, Took, Wants};
