//! That field, words and their repair mean what the papers say: equations with `paper`.
#![tactic(auto)]
