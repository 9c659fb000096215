//! The rack's functions, which the crate rack_c hands to C (rack/rack.h): parity made, a word checked, a word repaired, a plain stream read,
//! the opportunistic channel heard. A receiver's state is an array of numbers that the caller lends. Each function hands its arguments on
//! to the crate that does the work, and tells the answer by a number.
#![tactic(auto)]

mod answers;
mod hearing;
mod reading;
mod word;

pub use hearing::aas_channel_read;
pub use reading::aas_stream_read;
pub use word::{aas_parity_make, aas_word_check, aas_word_repair};
