//! No code: what words are, and the laws of polynomials, division and clean words. `lanes`, `parity` and `repair` make, check and repair them. Read specs/.
#![tactic(auto)]
