//! No code: what a capture for the usual network viewer is, what is imported of one, and the laws of both. `capture` writes and reads them.
//! Read specs/.
#![tactic(auto)]
