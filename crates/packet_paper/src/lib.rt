//! That check, packet, frame and plain stream mean what the papers say: equations with `paper`.
#![tactic(auto)]
