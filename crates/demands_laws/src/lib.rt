//! No code: the tables of refusals that the demands speak of, and laws that only help to prove them. What is demanded stands in `demands`.
#![tactic(auto)]
