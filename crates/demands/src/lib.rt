//! No code: the owner's three demands and the paper's numbers, as theorems over the crates below. Read proofs/.
#![tactic(auto)]
