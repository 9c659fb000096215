//! A recording listed: its bytes in, in pieces, and the lines of its listing out.
#![tactic(auto)]

mod lister;

pub use lister::{Lister, Took, Wants};
