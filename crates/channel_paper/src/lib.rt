//! That the opportunistic channel means what the papers say: equations with `paper`.
#![tactic(auto)]
